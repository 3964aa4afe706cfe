// The rank of a pair by the sheet's strategy, its cell, and a row of cells.
#![tactic(auto)]

ghost use Rattle.std.specs.Prelude.{◌≡◌, ◌+◌, ◌<◌, ◌≤◌, length};
ghost use Rattle.assignment.specs.Cells.{rank_cell, rank_held};
ghost use Rattle.components.specs.declared.Strategy.TheVariants.{Etd};
ghost use Rattle.ranking.specs.Ranking.{scan_by, halts_by, Ranks, HoldsHalts, rank_by, cell_by, held_by, sweep_from};

use components::Strategy;
use dispatch::Row;
use manifest::{Stops, Waiters};
use riders::Destinations;
use scale::Scaled;
use sweep::Sweep;

// scan.rs's rank of stop j; dests are the first coordinates that the riders are bound for.
fn scan_rank(row: &Row, dests: &[f64], waiters: Waiters, stops: &Stops, j: usize) -> Option<f64>
    requires { (row.now.riders.count ≤ length dests.now) × (j < 64) × (64 + j < length stops.now.points.now) }
    ensures { result ≡ scan_by row.now dests.now waiters stops.now.points.now j }
{
    let p = stops.point(j);
    let here = mask::has(row.riders.exits, j);
    let useful = row.pair_is_useful(dests, waiters, here, p.along, false);
    scan::rank(row.sweep, useful, row.car.position, p)
}

// The rank of stop j, by the strategy; ETD's takes the halts before it, which no other asks for.
pub fn rank(
    row: &Row,
    dests: &Destinations,
    waiters: Waiters,
    stops: &Stops,
    halts: u64,
    j: usize,
) -> Option<f64>
    requires { Ranks row.now.riders.count dests.now.along.now dests.now.across.now stops.now.points.now stops.now.count × (j < stops.now.count)
        × (row.now.policy.strategy ≡ Etd → halts ≡ halts_by row.now stops.now.points.now stops.now.count j) }
    ensures { result ≡ rank_by row.now dests.now.along.now dests.now.across.now waiters stops.now.points.now stops.now.count j }
{
    match row.policy.strategy {
        Strategy::Etd => etd::rank(row, dests, waiters, halts, stops, j),
        Strategy::Rsr => rsr::rank(row, dests.along, waiters, stops, j),
        Strategy::Scan => scan_rank(row, dests.along, waiters, stops, j),
        Strategy::Unknown => None,
    }
}

// The cell of a rank, and whether it is held.
fn rank_cell(rank: Option<f64>) -> Scaled
    ensures { (result.cell ≡ rank_cell rank) × (result.held ≡ rank_held rank) }
{
    match rank {
        None => scale::no_rank(),
        Some(x) => scale::scale_cost(x),
    }
}

// The cell of stop j, and whether it is held; under ETD the halts before each stop are listed.
pub fn cell(
    row: &Row,
    dests: &Destinations,
    waiters: Waiters,
    stops: &Stops,
    halts: &[u64],
    j: usize,
) -> Scaled
    requires { Ranks row.now.riders.count dests.now.along.now dests.now.across.now stops.now.points.now stops.now.count × (j < stops.now.count)
        × HoldsHalts row.now stops.now.points.now stops.now.count halts.now }
    ensures { let n = stops.now.count in
        (result.cell ≡ cell_by row.now dests.now.along.now dests.now.across.now waiters stops.now.points.now n j)
        × (result.held ≡ held_by row.now dests.now.along.now dests.now.across.now waiters stops.now.points.now n j) }
{
    if mask::has(row.kept, j) {
        rank_cell(rank(row, dests, waiters, stops, halts[j], j))
    } else {
        scale::no_rank()
    }
}

// A car's sweep after the pass: prepare_car under SCAN, for an idle car and with a pending stop. First coordinates alone are looked at, and ids are not
// at hand where all cars are swept.
#[tactic(auto, unfolding(crate::specs::Ranking::sweep_from))]
pub fn sweep_after(
    strategy: Strategy,
    sweep: Sweep,
    listed: bool,
    along: f64,
    pending: u64,
    demand: u64,
    xs: &[f64],
    n: usize,
) -> Sweep
    requires { (n ≤ 64) × (n ≤ length xs.now) }
    ensures { result ≡ sweep_from strategy sweep listed along pending demand xs.now n }
{
    match strategy {
        Strategy::Scan if listed & (pending != 0) => scan::prepare(sweep, along, demand, xs, n),
        _ => sweep,
    }
}

// SCAN: scan.rs, and sweep.rs's strict_demand_ahead.
#![tactic(auto)]

ghost use Rattle.std.specs.Prelude.{◌≡◌, ◌&&◌, ◌≤◌, ◌<◌, length};
ghost use Rattle.mask.specs.Mask.{has};
ghost use Rattle.sweep.specs.Sweeps.{strictly_ahead};
ghost use Rattle.scan.specs.Scan.{demand_ahead, prepared_by, rank_of};

use components::{Direction, Point};
use sweep::Sweep;

// Whether stop j, at p, has demand and lies strictly ahead.
fn demand_ahead_at(direction: Direction, x: f64, demand: u64, j: usize, p: f64) -> bool
    requires { j < 64 }
    ensures { result ≡ (has demand j && strictly_ahead direction x p) }
{
    mask::has(demand, j) && sweep::strictly_ahead(direction, x, p)
}

// Whether some demand stop of the n at xs lies strictly ahead of a car at x.
fn strict_demand_ahead(direction: Direction, x: f64, demand: u64, xs: &[f64], n: usize) -> bool
    requires { (n ≤ 64) × (n ≤ length xs.now) }
    ensures { result ≡ demand_ahead direction x demand xs.now n }
{
    for j in 0..n {
        if demand_ahead_at(direction, x, demand, j, xs[j]) {
            return true;
        }
    }
    false
}

// prepare_car: the sweep of a car at x after the look-ahead, which asks first coordinates alone.
pub fn prepare(sweep: Sweep, x: f64, demand: u64, xs: &[f64], n: usize) -> Sweep
    requires { (n ≤ 64) × (n ≤ length xs.now) }
    ensures { result ≡ prepared_by sweep x demand xs.now n }
{
    let ahead = strict_demand_ahead(sweep.direction, x, demand, xs, n);
    sweep.prepare(ahead)
}

// rank, of a pair that is useful or not.
pub fn rank(sweep: Sweep, useful: bool, x: Point, p: Point) -> Option<f64>
    ensures { result ≡ rank_of sweep useful x p }
{
    if useful { sweep.rank(x, p) } else { None }
}

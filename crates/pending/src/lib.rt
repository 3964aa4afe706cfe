// The pending stops of a sheet: pending_stops_minus_covered of assignment.rs.
#![tactic(auto)]

ghost use Rattle.std.specs.Prelude.{◌≡◌, cond, ◌||◌, ◌≤◌, eqb, length};
ghost use Rattle.layout.specs.Offsets.{Small};
ghost use Rattle.layout.specs.Records.{from, aboard_of, demand_of, sheet_of};
ghost use Rattle.mask.specs.Mask.{built};
ghost use Rattle.manifest.specs.Stops.{Ascending};
ghost use Rattle.manifest.specs.Manifest.{someone_waits, riderless_call, ridden_to, demand_stop};
ghost use Rattle.assignment.specs.Pending.{idle_bound, pending};
ghost use Rattle.pending.specs.Masks.{stop_mask, masks_of, line_stop, HoldsNames, HoldsIdle, Boarded, with_call, with_riding, with_bound};

use components::Line;
use layout::{Counts, aboard, car, demand, waiting};

// The stops of a line, if all are wanted or it has the id.
fn served_by(line: Line, every: bool, id: u32) -> u64
    ensures { result ≡ cond (every || eqb line.id id) line.serves 0 }
{
    if every | (line.id == id) {
        line.serves
    } else {
        0
    }
}

// The stops of every line, or of the line with this id.
pub fn line_stops(s: &[u8], c: Counts, every: bool, id: u32) -> u64
    requires { Small c }
    ensures { result ≡ built (line_stop (sheet_of s.now c) every id c.lines) 64 }
{
    let n = c.lines;
    let mut m: u64 = 0;
    for l in 0..n {
        m = mask::either(m, served_by(sheet::line_at(s, c, l), every, id));
    }
    m
}

// The stops where a hall call has no rider, and those that someone rides to.
#[derive(Clone, Copy)]
struct DemandMasks {
    calls: u64,
    ridden: u64,
}

// The masks with the stop of the demand record at a bit.
fn with_demand(m: DemandMasks, s: &[u8], at: u32, names: &[u32], n: usize) -> DemandMasks
    requires { (n ≤ 64) × (n ≤ length names.now) × Ascending names.now n }
    ensures { (result.calls ≡ with_call names.now n m.calls (demand_of (from s.now at)))
        × (result.ridden ≡ with_riding names.now n m.ridden (demand_of (from s.now at))) }
{
    let call = bits::flag(s, at, demand::CALL);
    let riding = bits::field(s, at, demand::RIDING, 16) > 0;
    if call | riding {
        let j = manifest::stop_index(names, n, bits::field32(s, at, demand::STOP));
        return DemandMasks {
            calls: covered::with_index(m.calls, call, j, n),
            ridden: covered::with_index(m.ridden, riding, j, n),
        };
    }
    m
}

// The masks of the demand records.
fn demand_masks(s: &[u8], c: Counts, names: &[u32]) -> DemandMasks
    requires { Small c × (c.demands ≤ 64) × (length names.now ≡ 64) × HoldsNames (sheet_of s.now c) names.now }
    ensures { (result.calls ≡ stop_mask (sheet_of s.now c) (riderless_call (sheet_of s.now c)))
        × (result.ridden ≡ stop_mask (sheet_of s.now c) (ridden_to (sheet_of s.now c))) }
{
    let n = c.demands;
    let base = c.demands_from();
    let mut m = DemandMasks {
        calls: 0,
        ridden: 0,
    };
    for d in 0..n {
        m = with_demand(m, s, base + demand::BITS * d, names, c.stops as usize);
    }
    m
}

// The stops where someone waits.
fn waited_stops(s: &[u8], c: Counts, names: &[u32]) -> u64
    requires { Small c × (length names.now ≡ 64) × HoldsNames (sheet_of s.now c) names.now }
    ensures { result ≡ stop_mask (sheet_of s.now c) (someone_waits (sheet_of s.now c)) }
{
    let n = c.waits;
    let base = c.waits_from();
    let mut m: u64 = 0;
    for w in 0..n {
        let id = bits::field32(s, base + waiting::BITS * w, waiting::STOP);
        m = covered::with_named(m, names, c.stops as usize, id);
    }
    m
}

// The demand stops of the group.
fn demand_stops(s: &[u8], c: Counts, m: DemandMasks, names: &[u32]) -> u64
    requires small { Small c × (length names.now ≡ 64) × HoldsNames (sheet_of s.now c) names.now }
    requires calls_value { (m.calls ≡ stop_mask (sheet_of s.now c) (riderless_call (sheet_of s.now c)))
        × (m.ridden ≡ stop_mask (sheet_of s.now c) (ridden_to (sheet_of s.now c))) }
    ensures { result ≡ stop_mask (sheet_of s.now c) (demand_stop (sheet_of s.now c)) }
{
    let group = line_stops(s, c, true, 0);
    let waited = waited_stops(s, c, names);
    mask::both(group, mask::either(waited, mask::either(m.ridden, m.calls)))
}

// The mask with the destination of the rider at a bit, if its car is one of the idle ones.
fn with_bound(m: u64, s: &[u8], at: u32, idle: &[u32], k: usize, names: &[u32], n: usize) -> u64
    requires { (k ≤ length idle.now) × (n ≤ 64) × (n ≤ length names.now) × Ascending names.now n }
    ensures { result ≡ with_bound names.now n m idle.now k (aboard_of (from s.now at)) }
{
    if fields::contains(idle, k, bits::field32(s, at, aboard::CAR)) {
        let id = bits::field32(s, at, aboard::DESTINATION);
        covered::with_named(m, names, n, id)
    } else {
        m
    }
}

// The stops that a rider of an idle car is bound for; the ids of the idle cars are at hand.
fn riders_bound(s: &[u8], c: Counts, idle: &[u32], names: &[u32]) -> u64
    requires { Small c × (length idle.now ≡ 32) × (length names.now ≡ 64) × HoldsNames (sheet_of s.now c) names.now
        × Boarded (sheet_of s.now c) × HoldsIdle (sheet_of s.now c) idle.now }
    ensures { result ≡ stop_mask (sheet_of s.now c) (idle_bound (sheet_of s.now c)) }
{
    let n = c.aboards;
    let base = c.aboards_from();
    let mut m: u64 = 0;
    for a in 0..n {
        m = with_bound(
            m,
            s,
            base + aboard::BITS * a,
            idle,
            c.cars as usize,
            names,
            c.stops as usize,
        );
    }
    m
}

// The stops that a rider of an idle car is bound for.
fn bound_stops(s: &[u8], c: Counts, names: &[u32]) -> u64
    requires { Small c × (length names.now ≡ 64) × HoldsNames (sheet_of s.now c) names.now × Boarded (sheet_of s.now c) }
    ensures { result ≡ stop_mask (sheet_of s.now c) (idle_bound (sheet_of s.now c)) }
{
    let mut idle = [0u32; 32];
    fields::fill_guarded(
        s,
        c.cars_from(),
        c.car_bits(),
        car::ID,
        car::LISTED,
        1,
        c.cars as usize,
        &mut idle,
    );
    riders_bound(s, c, &idle, names)
}

// The pending stops. Who is bound for a stop counts only where one is covered.
fn pending_stops(s: &[u8], c: Counts, demand: u64, names: &[u32]) -> u64
    requires small { Small c × (c.closures ≤ 64) × (length names.now ≡ 64) × HoldsNames (sheet_of s.now c) names.now × Boarded (sheet_of s.now c) }
    requires demand_value { demand ≡ stop_mask (sheet_of s.now c) (demand_stop (sheet_of s.now c)) }
    ensures { result ≡ stop_mask (sheet_of s.now c) (pending (sheet_of s.now c)) }
{
    let closed = covered::closed_stops(s, c, names);
    let kept = mask::without(demand, closed);
    let covered = covered::covered_stops(s, c, kept, closed, names);
    if covered == 0 {
        return kept;
    }
    mask::without(kept, mask::without(covered, bound_stops(s, c, names)))
}

// The masks of a sheet's stops: those with a call without a rider, those with demand, the pending ones.
#[derive(Clone, Copy)]
pub struct StopMasks {
    pub calls: u64,
    pub demand: u64,
    pub pending: u64,
}

// The masks of the stops, whose ids are at hand.
pub fn stop_masks(s: &[u8], c: Counts, names: &[u32]) -> StopMasks
    requires { Small c × (c.demands ≤ 64) × (c.closures ≤ 64) × (length names.now ≡ 64) × HoldsNames (sheet_of s.now c) names.now
        × Boarded (sheet_of s.now c) }
    ensures { result ≡ masks_of (sheet_of s.now c) }
{
    let m = demand_masks(s, c, names);
    let demand = demand_stops(s, c, m, names);
    let pending = pending_stops(s, c, demand, names);
    StopMasks {
        calls: m.calls,
        demand,
        pending,
    }
}

// ETD: etd.rs.
#![tactic(auto)]

ghost use Rattle.std.specs.Prelude.{◌≡◌, not, ◌&&◌, cond, ◌++◌, ◌+◌, ◌-◌, ◌≤◌, ◌<◌, length, drop};
ghost use Rattle.std.specs.Float.Ieee.{lt};
ghost use Rattle.laws.specs.Bools.{bit};
ghost use Rattle.laws.specs.Tables.{tab};
ghost use Rattle.riders.specs.Riders.{HasPoints};
ghost use Rattle.etd.specs.Etd.{intervenes, door_cost, extra_delay, is_ahead, moving_bonus, direction_bonus, weighted};
ghost use Rattle.etd.specs.Pairs.{intervening_in, halts_at, delay_in, terms_by, rank_by};
ghost use Rattle.etd.specs.Halts.{place_of, demand_places, counts_at, stop_counts, HoldsCounts, halts_between};

use components::{Phase, Point};
use dispatch::Row;
use manifest::{Stops, Waiters};
use riders::Destinations;

// What a cost is made of: the seconds to the stop, those that riders aboard lose, those of halts between, and the bonus; their weighted sum; what was
// waited at the stop, squared and plain; and the cost.
#[derive(Clone, Copy)]
pub struct Terms {
    pub travel: f64,
    pub delay: f64,
    pub doors: f64,
    pub bonus: f64,
    pub squares: f64,
    pub waitsum: f64,
    pub sum: f64,
    pub cost: f64,
}

// The position of a stop with demand; infinity for any other, and for a position that is not below it.
fn place_of(demand: bool, q: f64) -> f64
    ensures { result ≡ place_of demand q }
{
    let infinity = 1.0 / 0.0;
    if demand & (q < infinity) { q } else { infinity }
}

// The places of the n stops at xs.
fn demand_places(demand: u64, xs: &[f64], n: usize) -> [f64; 64]
    requires { (n ≤ 64) × (n ≤ length xs.now) }
    ensures { result ≡ demand_places demand xs.now n }
{
    let mut places = [1.0 / 0.0; 64];
    for k in 0..n {
        places[k] = place_of(mask::has(demand, k), xs[k]);
    }
    places
}

// 1 where q is below hi.
fn is_below(q: f64, hi: f64) -> u64
    ensures { result ≡ bit (lt q hi) }
{
    if q < hi { 1 } else { 0 }
}

// 1 where q is not above lo.
fn is_up_to(lo: f64, q: f64) -> u64
    ensures { result ≡ bit (not (lt lo q)) }
{
    if lo < q { 0 } else { 1 }
}

// How many of the first n places lie short of x, times 128, and how many up to it. Nothing branches, so that several are taken at once.
fn counts_at(x: f64, places: &[f64], n: usize) -> u64
    requires { (n ≤ 64) × (n ≤ length places.now) }
    ensures { result ≡ counts_at places.now n x }
{
    let lo = x + 1e-9;
    let hi = x - 1e-9;
    let mut short: u64 = 0;
    let mut reached: u64 = 0;
    for k in 0..n {
        let q = places[k];
        short += is_below(q, hi);
        reached += is_up_to(lo, q);
    }
    short * 128 + reached
}

// The counts of the stops, for every row of a pass.
pub fn fill_table(demand: u64, stops: &Stops, out: &mut [u64])
    requires { (stops.now.count ≤ 64) × (stops.now.count ≤ length stops.now.points.now) × (stops.now.count ≤ length out.old) }
    ensures { let n = stops.now.count in
        out.new ≡ tab (stop_counts demand stops.now.points.now n) n ++ drop n out.old }
{
    let xs = stops.points;
    let n = stops.count;
    let places = demand_places(demand, xs, n);
    for j in 0..n {
        out[j] = counts_at(xs[j], &places, n);
    }
}

// a less b, 0 where b is larger.
fn less(a: u64, b: u64) -> u64
    ensures { result ≡ a - b }
{
    if b < a { a - b } else { 0 }
}

// The demand stops between a car at x and a stop at p, from the counts of the two.
fn halts_between(x: f64, p: f64, car: u64, stop: u64) -> u64
    ensures { result ≡ halts_between x p car stop }
{
    if x < p {
        less(stop / 128, car % 128)
    } else {
        less(car / 128, stop % 128)
    }
}

// The demand stops between a car at x and each stop, from the stops' counts.
pub fn fill_halts(x: f64, demand: u64, stops: &Stops, table: &[u64], out: &mut [u64])
    requires { (stops.now.count ≤ 64) × (stops.now.count ≤ length stops.now.points.now) × (stops.now.count ≤ length out.old)
        × HoldsCounts demand stops.now.points.now stops.now.count table.now }
    ensures { let n = stops.now.count in
        out.new ≡ tab (halts_at x demand stops.now.points.now n) n ++ drop n out.old }
{
    let xs = stops.points;
    let n = stops.count;
    let places = demand_places(demand, xs, n);
    let car = counts_at(x, &places, n);
    for j in 0..n {
        out[j] = halts_between(x, xs[j], car, table[j]);
    }
}

fn upper(x: f64, p: f64) -> f64
    ensures { result ≡ cond (lt x p) p x }
{
    if x < p { p } else { x }
}

// 1 where a stop at q with demand lies strictly between a car at x and a stop at p, by more than 1e-9 from either.
fn is_between(demand: bool, x: f64, p: f64, q: f64) -> u64
    ensures { result ≡ bit (demand && intervenes x p q) }
{
    let lo = fp::lesser(p, x) + 1e-9;
    let hi = upper(x, p) - 1e-9;
    if demand & ((lo < q) & (q < hi)) { 1 } else { 0 }
}

// How many demand stops lie between: for one pair, one by one.
pub fn intervening_stops(x: f64, p: f64, demand: u64, stops: &Stops) -> u64
    requires { (stops.now.count ≤ 64) × (stops.now.count ≤ length stops.now.points.now) }
    ensures { result ≡ intervening_in x p demand stops.now.points.now stops.now.count }
{
    let mut between: u64 = 0;
    for k in 0..stops.count {
        between += is_between(mask::has(demand, k), x, p, stops.points[k]);
    }
    between
}

// The door cycles of these stops, in seconds.
fn door_cost(stops: u64, transition: u32, dwell: u32, rate: f64) -> f64
    ensures { result ≡ door_cost stops transition dwell rate }
{
    let cycle = transition as u64 * 2 + dwell as u64;
    let ticks = fp::natural(cycle);
    fp::natural(stops) * (ticks / rate)
}

// What the detour by a stop at p adds to the trip to d, in seconds.
fn extra_delay(x: Point, p: Point, d: Point, speed: f64) -> f64
    ensures { result ≡ extra_delay x p d speed }
{
    let detour = x.distance(p) + p.distance(d);
    let direct = x.distance(d);
    fp::max_zero(detour - direct) / speed
}

// existing_rider_delay, over the first n of dests.
fn existing_rider_delay(x: Point, p: Point, speed: f64, dests: &Destinations, n: usize) -> f64
    requires { HasPoints n dests.now.along.now dests.now.across.now }
    ensures { result ≡ delay_in x p speed dests.now.along.now dests.now.across.now n }
{
    let mut delay = 0.0;
    for k in 0..n {
        delay += extra_delay(x, p, dests.point(k), speed);
    }
    delay
}

// Whether a stop at p is ahead of a car that moves from x to g, up to g.
#[tactic(auto, unfolding(crate::specs::Etd::is_ahead))]
fn is_ahead(x: f64, p: f64, g: f64) -> bool
    ensures { result ≡ is_ahead x p g }
{
    if g > x {
        p > x && p <= g
    } else {
        p < x && p >= g
    }
}

// Half of the travel time off where the car moves past the stop.
fn moving_bonus(x: f64, p: f64, travel: f64, goal: Option<Point>) -> f64
    ensures { result ≡ moving_bonus x p travel goal }
{
    match goal {
        Some(g) if is_ahead(x, p, g.along) => -travel * 0.5,
        _ => 0.0,
    }
}

// direction_bonus: that, three tenths off for an idle car, nothing for any other.
fn direction_bonus(phase: Phase, goal: Option<Point>, x: f64, p: f64, travel: f64) -> f64
    ensures { result ≡ direction_bonus phase goal x p travel }
{
    if phase.is_moving() {
        moving_bonus(x, p, travel, goal)
    } else if phase.is_idle() {
        -travel * 0.3
    } else {
        0.0
    }
}

// The weighted sum: wait, delay, door; the bonus bears no weight.
fn weighted(
    wait: f64,
    delay: f64,
    door: f64,
    travel: f64,
    riders: f64,
    doors: f64,
    bonus: f64,
) -> f64
    ensures { result ≡ weighted wait delay door travel riders doors bonus }
{
    let a = fp::fma(door, doors, bonus);
    let b = fp::fma(delay, riders, a);
    fp::max_zero(fp::fma(wait, travel, b))
}

// compute_cost, of a stop at p with so many halts before it, for a row's car whose riders go to the first of dests; then less both fairness bonuses.
pub fn cost_terms(row: &Row, dests: &Destinations, waiters: Waiters, halts: u64, p: Point) -> Terms
    requires { HasPoints row.now.riders.count dests.now.along.now dests.now.across.now }
    ensures { result ≡ terms_by row.now.policy row.now.car row.now.goal row.now.riders.count dests.now.along.now dests.now.across.now
        waiters halts p }
{
    let policy = &row.policy;
    let car = &row.car;
    let x = car.position;
    let travel = x.distance(p) / car.speed;
    let doors = door_cost(halts, car.transition, car.dwell, policy.rate);
    let delay = existing_rider_delay(x, p, car.speed, dests, row.riders.count);
    let bonus = direction_bonus(car.phase, row.goal, x.along, p.along, travel);
    let sum = weighted(policy.w0, policy.w1, policy.w2, travel, delay, doors, bonus);
    let squared = dispatch::with_bonus(sum, policy.w3, waiters.squares);
    Terms {
        travel,
        delay,
        doors,
        bonus,
        squares: waiters.squares,
        waitsum: waiters.waitsum,
        sum,
        cost: dispatch::with_bonus(squared, policy.w4, waiters.waitsum),
    }
}

// rank, of stop j, with so many halts before it.
pub fn rank(
    row: &Row,
    dests: &Destinations,
    waiters: Waiters,
    halts: u64,
    stops: &Stops,
    j: usize,
) -> Option<f64>
    requires { HasPoints row.now.riders.count dests.now.along.now dests.now.across.now × (j < 64)
        × (64 + j < length stops.now.points.now) }
    ensures { result ≡ rank_by row.now.policy row.now.car row.now.goal row.now.riders dests.now.along.now dests.now.across.now waiters halts
        stops.now.points.now j }
{
    let p = stops.point(j);
    let here = mask::has(row.riders.exits, j);
    if row.pair_is_useful(dests.along, waiters, here, p.along, false) && row.car.speed > 0.0 {
        dispatch::finite_rank(cost_terms(row, dests, waiters, halts, p).cost)
    } else {
        None
    }
}

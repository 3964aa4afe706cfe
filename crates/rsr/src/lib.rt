// RSR: rsr.rs.
#![tactic(auto)]

ghost use Rattle.std.specs.Prelude.{◌≡◌, ◌+◌, ◌≤◌, ◌<◌, length};
ghost use Rattle.std.specs.Prelude.{Some};
ghost use Rattle.rsr.specs.Rsr.{wrong_direction, peak_scaling, with_penalty, with_coincident_call, held_ratio, with_load, rsr_terms_of};
ghost use Rattle.rsr.specs.Pairs.{rank_by};

use components::{Point, Traffic};
use dispatch::Row;
use manifest::{Stops, Waiters};

// What a cost is made of: the seconds to the stop; the running cost by them, then after the wrong direction, the call, the load and the ticks waited at
// the stop; and the cost.
#[derive(Clone, Copy)]
pub struct Terms {
    pub travel: f64,
    pub eta: f64,
    pub reversed: f64,
    pub called: f64,
    pub loaded: f64,
    pub waitsum: f64,
    pub aged: f64,
    pub cost: f64,
}

// Whether a car that moves from x to g moves away from a stop at p.
fn moves_away(g: Point, x: f64, p: f64) -> bool
    ensures { result ≡ wrong_direction (Some g) x p }
{
    let to = g.along;
    ((x < to) & (p < x)) | ((to < x) & (x < p))
}

// Whether the trip to a stop at p reverses the car.
fn wrong_direction(goal: Option<Point>, x: f64, p: f64) -> bool
    ensures { result ≡ wrong_direction goal x p }
{
    goal.is_some_and(|g| moves_away(g, x, p))
}

// The multiplier in an up or a down peak.
fn peak_scaling(traffic: Traffic, multiplier: f64) -> f64
    ensures { result ≡ peak_scaling traffic multiplier }
{
    match traffic {
        Traffic::Idle | Traffic::InterFloor => 1.0,
        Traffic::UpPeak | Traffic::DownPeak => multiplier,
    }
}

// The penalty, where its weight is above 0 and the trip reverses the car.
#[tactic(auto, unfolding(crate::specs::Rsr::with_penalty))]
fn with_penalty(cost: f64, weight: f64, scaling: f64, wrong: bool) -> f64
    ensures { result ≡ with_penalty cost weight scaling wrong }
{
    if weight > 0.0 && wrong {
        cost + weight * scaling
    } else {
        cost
    }
}

// The bonus, where its weight is above 0 and the car has a call for the stop.
#[tactic(auto, unfolding(crate::specs::Rsr::with_coincident_call))]
fn with_coincident_call(cost: f64, weight: f64, call: bool) -> f64
    ensures { result ≡ with_coincident_call cost weight call }
{
    if weight > 0.0 && call {
        cost - weight
    } else {
        cost
    }
}

// A load ratio, held to 0 and 1.
fn held_ratio(x: f64) -> f64
    ensures { result ≡ held_ratio x }
{
    if x < 0.0 {
        0.0
    } else if 1.0 < x {
        1.0
    } else {
        x
    }
}

// The load term, where its weight is above 0, the car is not in phase idle and its capacity is above 0. It is rounded once.
fn with_load(cost: f64, weight: f64, idle: bool, load: f64, capacity: f64) -> f64
    ensures { result ≡ with_load cost weight idle load capacity }
{
    if (0.0 < weight) & (!idle & (0.0 < capacity)) {
        multiply_add::mul_add(weight, held_ratio(load / capacity), cost)
    } else {
        cost
    }
}

// The cost for a row's car of a stop at p for which it has a call, or not.
pub fn cost_terms(row: &Row, waiters: Waiters, call: bool, p: Point) -> Terms
    ensures { result ≡ rsr_terms_of row.now.policy row.now.car row.now.goal waiters.waitsum call p }
{
    let policy = &row.policy;
    let car = &row.car;
    let x = car.position;
    let travel = x.distance(p) / car.speed;
    let eta = policy.w0 * travel;
    let scaling = peak_scaling(policy.traffic, policy.w5);
    let wrong = wrong_direction(row.goal, x.along, p.along);
    let reversed = with_penalty(eta, policy.w1, scaling, wrong);
    let called = with_coincident_call(reversed, policy.w2, call);
    let loaded = with_load(
        called,
        policy.w3,
        car.phase.is_idle(),
        car.load,
        car.capacity,
    );
    let aged = dispatch::with_bonus(loaded, policy.w4, waiters.waitsum);
    Terms {
        travel,
        eta,
        reversed,
        called,
        loaded,
        waitsum: waiters.waitsum,
        aged,
        cost: fp::max_zero(aged),
    }
}

// rank, of stop j; dests are the first coordinates that the riders are bound for.
pub fn rank(row: &Row, dests: &[f64], waiters: Waiters, stops: &Stops, j: usize) -> Option<f64>
    requires { (row.now.riders.count ≤ length dests.now) × (j < 64) × (64 + j < length stops.now.points.now) }
    ensures { result ≡ rank_by row.now.policy row.now.car row.now.goal row.now.riders dests.now waiters stops.now.points.now j }
{
    let p = stops.point(j);
    let here = mask::has(row.riders.exits, j);
    let call = mask::has(row.car.calls, j);
    if row.pair_is_useful(dests, waiters, here, p.along, true) {
        if row.car.speed <= 0.0 {
            None
        } else {
            dispatch::finite_rank(cost_terms(row, waiters, call, p).cost)
        }
    } else {
        None
    }
}

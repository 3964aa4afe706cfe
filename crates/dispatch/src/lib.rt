// What the strategies share: mod.rs.
#![tactic(auto)]

ghost use Rattle.std.specs.Prelude.{◌≡◌, ◌&&◌, not, ◌≤◌, length};
ghost use Rattle.std.specs.Float.Ieee.{lt, le};
ghost use Rattle.fp.specs.Num.{zero, over};
ghost use Rattle.std.specs.Prelude.{Some};
ghost use Rattle.dispatch.specs.Useful.{loaded_to, bypass, on_path};
ghost use Rattle.dispatch.specs.Pairs.{can_board, servable_by, on_path_in, path_allows, useful_by, obstacle_by, obstacle_number};
ghost use Rattle.dispatch.specs.FiniteRank.{finite_rank};
ghost use Rattle.dispatch.specs.Waits.{fairness_bonus, with_bonus};

use components::{Car, Point, Policy};
use manifest::Waiters;
use riders::Riders;
use sweep::Sweep;

// What the ranks of a car share: the policy, the car with its sweep, where it moves to, its riders, the demand stops, and the stops that it is
// ranked for.
#[derive(Clone, Copy)]
pub struct Row {
    pub policy: Policy,
    pub car: Car,
    pub sweep: Sweep,
    pub goal: Option<Point>,
    pub riders: Riders,
    pub demand: u64,
    pub kept: u64,
}

// What stands against a trip: the car passes the stop by, it is full, nobody boards, the stop is off the path.
#[derive(Clone, Copy)]
pub enum Obstacle {
    Bypassed,
    Full,
    NobodyBoards,
    OffPath,
}

impl Obstacle {
    // Its number, in the order of the tests.
    pub fn number(self) -> u32
        ensures { result ≡ obstacle_number (Some self) }
    {
        match self {
            Obstacle::Bypassed => 1,
            Obstacle::Full => 2,
            Obstacle::NobodyBoards => 3,
            Obstacle::OffPath => 4,
        }
    }
}

// Whether the load is at least this part of the capacity; a capacity of 0 has none.
fn load_reaches(capacity: f64, load: f64, pct: f64) -> bool
    ensures { result ≡ (not (le capacity zero) && not (lt (over load capacity) pct)) }
{
    !(capacity <= 0.0) && !(load / capacity < pct)
}

// Whether the car is loaded to the threshold.
fn loaded_to(car: &Car, threshold: Option<f64>) -> bool
    ensures { result ≡ loaded_to car.now threshold }
{
    threshold.is_some_and(|pct| load_reaches(car.capacity, car.load, pct))
}

// Whether a car that moves to g passes by a stop at p.
fn bypass_to(car: &Car, g: Point, p: f64) -> bool
    ensures { result ≡ bypass car.now (Some g) p }
{
    let x = car.position.along;
    let to = g.along;
    if x < to {
        loaded_to(car, car.bypassup) && x < p
    } else {
        to < x && loaded_to(car, car.bypassdown) && p < x
    }
}

// bypass_in_current_direction.
fn bypass_in_current_direction(car: &Car, goal: Option<Point>, p: f64) -> bool
    ensures { result ≡ bypass car.now goal p }
{
    match goal {
        None => false,
        Some(g) => bypass_to(car, g, p),
    }
}

// rider_can_board, asked of all who wait at once: by the least weight of each class that the lamps let in.
fn can_board(waiters: Waiters, car: &Car) -> bool
    ensures { result ≡ can_board waiters car.now }
{
    let room = car.remaining_capacity();
    !(room < waiters.level)
        | ((car.up & !(room < waiters.up)) | (car.down & !(room < waiters.down)))
}

fn servable(waiters: Waiters, car: &Car) -> bool
    ensures { result ≡ servable_by waiters car.now }
{
    if waiters.someone {
        can_board(waiters, car)
    } else {
        waiters.call
    }
}

// Whether a stop at p is on the path of a car at x to d. The product's sign is the Rust's test, underflow and all.
#[tactic(auto, unfolding(crate::specs::Useful::on_path))]
fn on_path_to(x: f64, p: f64, d: f64) -> bool
    ensures { result ≡ on_path x p d }
{
    let to_stop = p - x;
    let to_dest = d - x;
    to_dest * to_stop >= 0.0 && fp::abs(to_stop) <= fp::abs(to_dest)
}

// Whether it is on the path to one of the first n of dests.
fn on_path(x: f64, p: f64, dests: &[f64], n: usize) -> bool
    requires { n ≤ length dests.now }
    ensures { result ≡ on_path_in x p dests.now n }
{
    for k in 0..n {
        if on_path_to(x, p, dests[k]) {
            return true;
        }
    }
    false
}

impl Row {
    // The aboard-path test, where it is asked for: a car without routed riders goes anywhere.
    #[tactic(auto, unfolding(crate::specs::Pairs::path_allows))]
    fn path_allows(&self, dests: &[f64], p: f64, path: bool) -> bool
        requires { self.now.riders.count ≤ length dests.now }
        ensures { result ≡ path_allows self.now.car self.now.riders dests.now p path }
    {
        let riders = self.riders;
        !path || !riders.routed || on_path(self.car.position.along, p, dests, riders.count)
    }

    // What stands against the trip, by the first test that fails. here says that a rider of the car is bound for the stop, which stands at p. Directions
    // and the path are of first coordinates.
    pub fn obstacle(
        &self,
        dests: &[f64],
        waiters: Waiters,
        here: bool,
        p: f64,
        path: bool,
    ) -> Option<Obstacle>
        requires { self.now.riders.count ≤ length dests.now }
        ensures { obstacle_number result ≡ obstacle_by self.now.car self.now.goal self.now.riders dests.now waiters here p path }
    {
        if here {
            return None;
        }
        let car = &self.car;
        if bypass_in_current_direction(car, self.goal, p) {
            return Some(Obstacle::Bypassed);
        }
        if car.remaining_capacity() <= 0.0 {
            return Some(Obstacle::Full);
        }
        if !servable(waiters, car) {
            return Some(Obstacle::NobodyBoards);
        }
        if self.path_allows(dests, p, path) {
            None
        } else {
            Some(Obstacle::OffPath)
        }
    }

    // Whether the trip does any work.
    pub fn pair_is_useful(
        &self,
        dests: &[f64],
        waiters: Waiters,
        here: bool,
        p: f64,
        path: bool,
    ) -> bool
        requires { self.now.riders.count ≤ length dests.now }
        ensures { result ≡ useful_by self.now.car self.now.goal self.now.riders dests.now waiters here p path }
    {
        self.obstacle(dests, waiters, here, p, path).is_none()
    }
}

// The cost less the weighted term, at least 0.
fn apply_fairness_bonus(cost: f64, weight: f64, term: f64) -> f64
    ensures { result ≡ fairness_bonus cost weight term }
{
    fp::max_zero(fp::fma(weight, -term, cost))
}

// A weight above 0 has its bonus applied.
pub fn with_bonus(cost: f64, weight: f64, term: f64) -> f64
    ensures { result ≡ with_bonus cost weight term }
{
    if weight > 0.0 {
        apply_fairness_bonus(cost, weight, term)
    } else {
        cost
    }
}

// A cost that is finite is a rank.
pub fn finite_rank(cost: f64) -> Option<f64>
    ensures { result ≡ finite_rank cost }
{
    if fp::finite(cost) { Some(cost) } else { None }
}

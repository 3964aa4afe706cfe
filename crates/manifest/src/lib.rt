// What waits where: manifest.rs, and the look-ups of world.rs and the group that the costs share. Stops are two lists, of ids and
// of coordinates: 64 first ones, then 64 second ones.
#![tactic(auto)]

ghost use Rattle.std.specs.Prelude.{◌≡◌, cond, ltb, ◌+◌, ◌≤◌, ◌<◌, length, get_or};
ghost use Rattle.std.specs.Float.{nan};
ghost use Rattle.manifest.specs.World.{goal_of};
ghost use Rattle.manifest.specs.Stops.{Ascending, AtHand, stop_index, point_in, place_at, position_in};
ghost use Rattle.manifest.specs.Waiters.{goes_up, goes_down, lesser_if, nobody, with_rider};

use components::{Phase, Point};

// half where a is at most b, else 0, by the bit that b - a borrows: a branch would be mispredicted every other time.
fn half_if(half: usize, a: u32, b: u32) -> usize
    ensures { result ≡ cond (ltb b a) 0 half }
{
    let kept = (b as u64 + 0x1_0000_0000 - a as u64) >> 32;
    half * (kept as usize)
}

// The index of the stop with this id, n where there is none: by halves, since ids rise. Of ids alone, which is what pending and covered have at hand.
pub fn stop_index(ids: &[u32], n: usize, id: u32) -> usize
    requires { (n ≤ length ids.now) × Ascending ids.now n }
    ensures { result ≡ stop_index ids.now n id }
{
    let mut base: usize = 0;
    let mut size = n;
    while size > 1 {
        let half = size / 2;
        base += half_if(half, ids[base + half], id);
        size -= half;
    }
    if base < n {
        if ids[base] == id {
            return base;
        }
    }
    n
}

// The point of stop j.
pub fn point(xs: &[f64], j: usize) -> Point
    requires { 64 + j < length xs.now }
    ensures { result ≡ point_in xs.now j }
{
    Point {
        along: xs[j],
        across: xs[64 + j],
    }
}

// The stops at hand: their ids, which rise, their coordinates, and how many they are.
#[derive(Clone, Copy)]
pub struct Stops<'a> {
    pub ids: &'a [u32],
    pub points: &'a [f64],
    pub count: usize,
}

impl<'a> Stops<'a> {
    // The index of the stop with this id, the count where there is none.
    pub fn index(&self, id: u32) -> usize
        requires { AtHand self.now.ids.now self.now.points.now self.now.count }
        ensures { result ≡ stop_index self.now.ids.now self.now.count id }
    {
        stop_index(self.ids, self.count, id)
    }

    // Where stop j stands.
    pub fn point(&self, j: usize) -> Point
        requires { 64 + j < length self.now.points.now }
        ensures { result ≡ point_in self.now.points.now j }
    {
        point(self.points, j)
    }

    // Where the stop of an index stands.
    fn place(&self, index: usize) -> Option<Point>
        requires { AtHand self.now.ids.now self.now.points.now self.now.count }
        ensures { result ≡ place_at self.now.points.now self.now.count index }
    {
        if index < self.count {
            Some(self.point(index))
        } else {
            None
        }
    }

    // stop_position: where the stop with this id stands.
    fn position(&self, id: u32) -> Option<Point>
        requires { AtHand self.now.ids.now self.now.points.now self.now.count }
        ensures { result ≡ position_in self.now.ids.now self.now.points.now self.now.count id }
    {
        self.place(self.index(id))
    }

    // Where a car in this phase moves to: the position of its moving_target.
    pub fn goal(&self, phase: Phase) -> Option<Point>
        requires { AtHand self.now.ids.now self.now.points.now self.now.count }
        ensures { result ≡ goal_of (position_in self.now.ids.now self.now.points.now self.now.count) phase }
    {
        match phase {
            Phase::MovingToStop(stop) | Phase::Repositioning(stop) => self.position(stop),
            _ => None,
        }
    }
}

// What waits at a stop: whether anyone does, whether a hall call has no rider, the sums of the wait ticks and of their squares, and the least
// weight among those who go up, who go down, and who do neither. It depends on no car.
#[derive(Clone, Copy)]
pub struct Waiters {
    pub someone: bool,
    pub call: bool,
    pub waitsum: f64,
    pub squares: f64,
    pub up: f64,
    pub down: f64,
    pub level: f64,
}

fn goes_up(p: f64, place: Option<Point>) -> bool
    ensures { result ≡ goes_up p place }
{
    place.is_some_and(|d| p < d.along)
}

fn goes_down(p: f64, place: Option<Point>) -> bool
    ensures { result ≡ goes_down p place }
{
    place.is_some_and(|d| d.along < p)
}

fn lesser_if(counts: bool, least: f64, weight: f64) -> f64
    ensures { result ≡ lesser_if counts least weight }
{
    if counts {
        fp::lesser(least, weight)
    } else {
        least
    }
}

impl Waiters {
    pub fn none(call: bool) -> Self
        ensures { result ≡ nobody call }
    {
        let infinity = 1.0 / 0.0;
        Waiters {
            someone: false,
            call,
            waitsum: 0.0,
            squares: 0.0,
            up: infinity,
            down: infinity,
            level: infinity,
        }
    }

    // One rider more at a stop at p.
    fn with_rider(self, p: f64, place: Option<Point>, weight: f64, wait: u64) -> Self
        ensures { result ≡ with_rider self p place weight wait }
    {
        let ticks = fp::natural(wait);
        let up = goes_up(p, place);
        let down = goes_down(p, place);
        Waiters {
            someone: true,
            call: self.call,
            waitsum: self.waitsum + ticks,
            squares: self.squares + ticks * ticks,
            up: lesser_if(up, self.up, weight),
            down: lesser_if(down, self.down, weight),
            level: lesser_if(!(up | down), self.level, weight),
        }
    }

    // The rider of a record, who waits at stop j.
    pub fn meet(self, stops: &Stops, j: usize, dest: u32, weight: f64, wait: u64) -> Self
        requires { AtHand stops.now.ids.now stops.now.points.now stops.now.count × (j < stops.now.count) }
        ensures { let xs = stops.now.points.now in
            result ≡ with_rider self (get_or xs j nan) (position_in stops.now.ids.now xs stops.now.count dest) weight wait }
    {
        self.with_rider(stops.points[j], stops.position(dest), weight, wait)
    }
}

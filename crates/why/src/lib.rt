// Why a pair of a car and a stop costs what it does, or has no rank: the terms of its cost, or the reason, by the functions that fill the matrix.
#![tactic(auto)]

ghost use Rattle.std.specs.Prelude.{◌≡◌, cond, ◌+◌, ◌≤◌, ◌<◌, length, Ok};
ghost use Rattle.layout.specs.Records.{sheet_of, limit_of};
ghost use Rattle.layout.specs.Verdict.{verdict};
ghost use Rattle.layout.specs.Offsets.{Small};
ghost use Rattle.dispatch.specs.Pairs.{obstacle_number};
ghost use Rattle.ranking.specs.Ranking.{Ranks};
ghost use Rattle.cells.specs.Survey.{SeenStops};
ghost use Rattle.why.specs.Why.{first_reason, rank_reason, asks_path, etd_slots, rsr_slots, scan_slots, car_record, why_by, why_at, why_in, why_of};
ghost use Rattle.why.specs.Pairs.{terms_by, reason_by};
ghost use Rattle.why.specs.Answers.{lent_why, terms_left};
ghost use Rattle.why.specs.declared.Why.TheVariants.{Ranked};

use components::Strategy;
use dispatch::{Obstacle, Row};
use layout::{Counts, Refusal, SHORT_BUFFER};
use manifest::{Stops, Waiters};
use pending::StopMasks;
use riders::Destinations;

// The terms of a cost by slots; the last is the cost.
//   ETD: travel, delay, doors, bonus, their weighted sum, the ticks waited squared, the ticks waited
//   RSR: travel; the running cost by it, then after wrong direction, call and load; the ticks waited; the running cost after them
//   SCAN: the distance, and none
#[derive(Clone, Copy)]
pub struct Terms {
    pub t0: f64,
    pub t1: f64,
    pub t2: f64,
    pub t3: f64,
    pub t4: f64,
    pub t5: f64,
    pub t6: f64,
    pub t7: f64,
}

// A pair has a rank, with its terms, or none, with the reason's number.
#[derive(Clone, Copy)]
pub enum Why {
    Ranked(Terms),
    Unranked(u32),
}

fn etd_slots(t: etd::Terms) -> Terms
    ensures { result ≡ etd_slots t }
{
    Terms {
        t0: t.travel,
        t1: t.delay,
        t2: t.doors,
        t3: t.bonus,
        t4: t.sum,
        t5: t.squares,
        t6: t.waitsum,
        t7: t.cost,
    }
}

fn rsr_slots(t: rsr::Terms) -> Terms
    ensures { result ≡ rsr_slots t }
{
    Terms {
        t0: t.travel,
        t1: t.eta,
        t2: t.reversed,
        t3: t.called,
        t4: t.loaded,
        t5: t.waitsum,
        t6: t.aged,
        t7: t.cost,
    }
}

fn scan_slots(d: f64) -> Terms
    ensures { result ≡ scan_slots d }
{
    Terms {
        t0: d,
        t1: 0.0,
        t2: 0.0,
        t3: 0.0,
        t4: 0.0,
        t5: 0.0,
        t6: 0.0,
        t7: d,
    }
}

// The terms of stop j, by the strategy.
fn terms_of(row: &Row, dests: &Destinations, v: Waiters, stops: &Stops, j: usize) -> Terms
    requires { Ranks row.now.riders.count dests.now.along.now dests.now.across.now stops.now.points.now stops.now.count × (j < stops.now.count) }
    ensures { result ≡ terms_by row.now dests.now.along.now dests.now.across.now v stops.now.points.now stops.now.count j }
{
    let x = row.car.position;
    let p = stops.point(j);
    let call = mask::has(row.car.calls, j);
    match row.policy.strategy {
        Strategy::Etd => {
            let halts = etd::intervening_stops(x.along, p.along, row.demand, stops);
            etd_slots(etd::cost_terms(row, dests, v, halts, p))
        }
        Strategy::Rsr => rsr_slots(rsr::cost_terms(row, v, call, p)),
        Strategy::Scan => scan_slots(x.distance(p)),
        Strategy::Unknown => scan_slots(0.0),
    }
}

fn asks_path(strategy: Strategy) -> bool
    ensures { result ≡ asks_path strategy }
{
    matches!(strategy, Strategy::Rsr)
}

// What stands against a rank, by its number.
fn rank_reason(obstacle: Option<Obstacle>, rank: Option<f64>) -> u32
    ensures { result ≡ rank_reason (obstacle_number obstacle) rank }
{
    match obstacle {
        Some(against) => 7 + against.number(),
        None => { if rank.is_some() { 0 } else { 12 } }
    }
}

// The first reason in the order in which a pass asks.
fn first_reason(listed: bool, waits: bool, served: bool, shut: bool, near: bool, rest: u32) -> u32
    ensures { result ≡ first_reason listed waits served shut near rest }
{
    if listed {
        if waits {
            if served {
                if shut {
                    return 6;
                }
                return if near { rest } else { 7 };
            }
            return 5;
        }
        return 4;
    }
    3
}

// Why a row has no rank for stop j, which waits for a car and is served by the car's line, or not; 0 where it has one.
fn reason_of(
    row: &Row,
    dests: &Destinations,
    v: Waiters,
    stops: &Stops,
    j: usize,
    waits: bool,
    served: bool,
) -> u32
    requires { Ranks row.now.riders.count dests.now.along.now dests.now.across.now stops.now.points.now stops.now.count × (j < stops.now.count) }
    ensures { result ≡ reason_by row.now dests.now.along.now dests.now.across.now v stops.now.points.now stops.now.count j waits served }
{
    let car = &row.car;
    let p = stops.point(j);
    let here = mask::has(row.riders.exits, j);
    let path = asks_path(row.policy.strategy);
    let obstacle = row.obstacle(dests.along, v, here, p.along, path);
    let halts = etd::intervening_stops(car.position.along, p.along, row.demand, stops);
    let rank = ranking::rank(row, dests, v, stops, halts, j);
    let shut = mask::has(car.restricted, j);
    let near = mask::has(row.kept, j);
    first_reason(
        car.listed,
        waits,
        served,
        shut,
        near,
        rank_reason(obstacle, rank),
    )
}

// A reason of 0 is a rank.
fn answer(reason: u32, terms: Terms) -> Why
    ensures { result ≡ why_by reason terms }
{
    if reason == 0 {
        Why::Ranked(terms)
    } else {
        Why::Unranked(reason)
    }
}

// Why, of a row and stop j.
fn of_row(
    row: &Row,
    dests: &Destinations,
    v: Waiters,
    stops: &Stops,
    j: usize,
    waits: bool,
    served: bool,
) -> Why
    requires { Ranks row.now.riders.count dests.now.along.now dests.now.across.now stops.now.points.now stops.now.count × (j < stops.now.count) }
    ensures { result ≡ why_by (reason_by row.now dests.now.along.now dests.now.across.now v stops.now.points.now stops.now.count j waits served)
        (terms_by row.now dests.now.along.now dests.now.across.now v stops.now.points.now stops.now.count j) }
{
    let reason = reason_of(row, dests, v, stops, j, waits, served);
    answer(reason, terms_of(row, dests, v, stops, j))
}

// Why, of car record i and stop record j, where the stops and their masks are at hand.
fn of_records<'a>(
    s: &'a [u8],
    c: Counts,
    i: u32,
    j: usize,
    ids: &'a [u32],
    xs: &'a [f64],
    masks: StopMasks,
) -> Why
    requires s_value { (verdict s.now ≡ Ok c) × (i < c.cars) × (j < c.stops) × (length ids.now ≡ 64) × (length xs.now ≡ 128) }
    requires seen_stops { SeenStops (sheet_of s.now c) ids.now xs.now masks }
    ensures { result ≡ why_at (sheet_of s.now c) (limit_of s.now) i j }
{
    let mut dests = [0.0f64; 512];
    let mut sides = [0.0f64; 512];
    let most = sheet::limit(s) as u32;
    let row = cells::row_of(s, c, i, most, ids, xs, masks, &mut dests, &mut sides);
    let mut sums = [0.0f64; 320];
    let someone = cells::waiting(s, c, ids, xs, masks.calls, &mut sums);
    let v = rows::waiters_at(someone, masks.calls, &sums, j);
    let line = row.car.line;
    let served = mask::has(pending::line_stops(s, c, false, line), j);
    let waits = mask::has(masks.pending, j);
    let bound = Destinations {
        along: &dests,
        across: &sides,
    };
    let stops = Stops {
        ids,
        points: xs,
        count: c.stops as usize,
    };
    of_row(&row, &bound, v, &stops, j, waits, served)
}

fn either(first: bool, x: u32, y: u32) -> u32
    ensures { result ≡ cond first x y }
{
    if first { x } else { y }
}

// The record of the car with this id, past the last where there is none.
fn car_record(s: &[u8], c: Counts, id: u32) -> u32
    requires { Small c }
    ensures { result ≡ car_record (sheet_of s.now c) id }
{
    let mut found = c.cars;
    for i in 0..c.cars {
        let car = sheet::car_at(s, c, i);
        found = either(car.id == id, i, found);
    }
    found
}

// Why, of two ids of an accepted sheet.
fn of_ids(s: &[u8], c: Counts, car: u32, stop: u32) -> Why
    requires { verdict s.now ≡ Ok c }
    ensures { result ≡ why_in (sheet_of s.now c) (limit_of s.now) car stop }
{
    let mut ids = [0u32; 64];
    let mut xs = [0.0f64; 128];
    let masks = cells::see_stops(s, c, &mut ids, &mut xs);
    let i = car_record(s, c, car);
    let j = manifest::stop_index(&ids, c.stops as usize, stop);
    if i < c.cars {
        if j < c.stops as usize {
            return of_records(s, c, i, j, &ids, &xs, masks);
        }
        return Why::Unranked(2);
    }
    Why::Unranked(1)
}

// Why the car with one id costs what it does for the stop with another, or has no rank.
fn ask(s: &[u8], car: u32, stop: u32) -> Result<Why, Refusal>
    ensures { result ≡ why_of s.now car stop }
{
    let c = sheet::read(s)?;
    Ok(of_ids(s, c, car, stop))
}

// The eight, first in the places.
fn write_terms(t: Terms, places: &mut [f64])
    requires { 8 ≤ length places.old }
    ensures { places.new ≡ terms_left (Ok (Ranked t)) places.old }
{
    places[0] = t.t0;
    places[1] = t.t1;
    places[2] = t.t2;
    places[3] = t.t3;
    places[4] = t.t4;
    places[5] = t.t5;
    places[6] = t.t6;
    places[7] = t.t7;
}

// The same, with the terms first in the places. Fewer than eight are refused in front of the sheet; without a rank they are left.
pub fn fill_terms(s: &[u8], car: u32, stop: u32, places: &mut [f64]) -> Result<Why, Refusal>
    ensures answer { result ≡ lent_why s.now car stop (length places.old) }
    ensures places { places.new ≡ terms_left (lent_why s.now car stop (length places.old))
        places.old }
{
    if places.len() < 8 {
        return Err(SHORT_BUFFER);
    }
    let why = ask(s, car, stop)?;
    match why {
        Why::Ranked(t) => {
            write_terms(t, places);
            Ok(why)
        }
        Why::Unranked(_) => Ok(why),
    }
}

// The covered stops of a sheet: its columns, and is_covered for each stop that is asked for.
#![tactic(auto)]

ghost use Rattle.std.specs.Prelude.{◌≡◌, cond, ◌&&◌, ◌||◌, ◌++◌, ℕ, ◌<◌, ◌≤◌, eqb, ltb, length, drop};
ghost use Rattle.laws.specs.Tables.{tab};
ghost use Rattle.mask.specs.Mask.{has, built};
ghost use Rattle.components.specs.Cars.{remaining};
ghost use Rattle.layout.specs.Offsets.{Small};
ghost use Rattle.layout.specs.Records.{from, car_of, sheet_of};
ghost use Rattle.assignment.specs.Pending.{serves, covered, covered_by_cars};
ghost use Rattle.coverage.specs.Coverage.{covered_by};
ghost use Rattle.covered.specs.Columns.{served_target, HoldsIds};
ghost use Rattle.covered.specs.Same.{covered_in, HoldsServing, closed_in};
ghost use Rattle.covered.specs.Walk.{with_named};
ghost use Rattle.manifest.specs.Stops.{Ascending};
ghost use Rattle.laws.specs.Folds.{any};

use components::Phase;
use coverage::{Serving, Waiting};
use layout::{Counts, car, closed, line, waiting};

// The mask with stop j where b holds, if j is one of n.
pub fn with_index(m: u64, b: bool, j: usize, n: usize) -> u64
    requires { n ≤ 64 }
    ensures { result ≡ cond (b && ltb j n) (built (λ k. has m k || eqb k j) 64) m }
{
    if b & (j < n) { mask::with(m, j) } else { m }
}

// The mask with the stop that has the id, one of n with their names.
pub fn with_named(m: u64, names: &[u32], n: usize, id: u32) -> u64
    requires { (n ≤ 64) × (n ≤ length names.now) × Ascending names.now n }
    ensures { result ≡ with_named names.now n m id }
{
    with_index(m, true, manifest::stop_index(names, n, id), n)
}

// The target of a car that serves it, else 0; it stands before a second coordinate of any bits.
fn target_at(s: &[u8], at: u32) -> u32
    ensures { (w : ℕ) → result ≡ served_target (car_of w (from s.now at)) }
{
    let phase = Phase::of_code(
        bits::field(s, at, car::PHASE, 3),
        bits::field32(s, at, car::STOP),
    );
    if phase.servicing() {
        bits::field32(s, at, car::TARGET)
    } else {
        0
    }
}

// The weight that a car still takes.
fn room_at(s: &[u8], at: u32, across: u32) -> f64
    requires { across ≤ 64 }
    ensures { result ≡ remaining (car_of across (from s.now at)) }
{
    let capacity = records::double_at(s, at, car::CAPACITY + across);
    capacity - records::double_at(s, at, car::LOAD + across)
}

fn fill_targets(s: &[u8], c: Counts, out: &mut [u32])
    requires { Small c × (length out.old ≡ 32) }
    ensures { (length out.new ≡ length out.old)
        × (out.new ≡ tab (λ i. served_target ((sheet_of s.now c).car i)) c.cars ++ drop c.cars out.old) }
{
    fields::fill(
        c.cars_from(),
        c.car_bits(),
        c.cars as usize,
        |at| target_at(s, at),
        out,
    );
}

fn fill_rooms(s: &[u8], c: Counts, out: &mut [f64])
    requires { Small c × (length out.old ≡ 32) }
    ensures { (length out.new ≡ length out.old)
        × (out.new ≡ tab (λ i. remaining ((sheet_of s.now c).car i)) c.cars ++ drop c.cars out.old) }
{
    fields::fill(
        c.cars_from(),
        c.car_bits(),
        c.cars as usize,
        |at| room_at(s, at, c.across),
        out,
    );
}

// Whether stop j is in the mask and covered.
fn covered_at(cars: &Serving<'_>, riders: &Waiting<'_>, asked: u64, j: usize, id: u32) -> bool
    requires { j < 64 }
    ensures { result ≡ (has asked j && covered_by cars.now.targets.now cars.now.lines.now cars.now.rooms.now (length cars.now.targets.now)
        cars.now.line_ids.now (length cars.now.line_ids.now) riders.now.stops.now riders.now.required.now riders.now.weights.now
        (length riders.now.stops.now) id) }
{
    mask::has(asked, j) && coverage::is_covered(cars, riders, id)
}

// The stops of the mask that are covered. A test of the mask ends the loop, and no range.
fn covered_mask(cars: &Serving<'_>, riders: &Waiting<'_>, asked: u64, names: &[u32]) -> u64
    requires { length names.now ≡ 64 }
    ensures { result ≡ built (covered_in cars.now.targets.now cars.now.lines.now cars.now.rooms.now (length cars.now.targets.now)
        cars.now.line_ids.now (length cars.now.line_ids.now) riders.now.stops.now riders.now.required.now riders.now.weights.now
        (length riders.now.stops.now) asked names.now) 64 }
{
    let mut m: u64 = 0;
    let mut j: usize = 0;
    while mask::past_stops(asked, j) {
        let covered = covered_at(cars, riders, asked, j, names[j]);
        m = mask::with_if(m, covered, j);
        j += 1;
    }
    m
}

// The stops of the mask that are covered, with the columns of those who wait, which have room.
fn covered_columns(
    s: &[u8],
    c: Counts,
    cars: &Serving<'_>,
    asked: u64,
    names: &[u32],
    stops: &mut [u32],
    required: &mut [u32],
    weights: &mut [f64],
) -> u64
    requires small { Small c × (length names.now ≡ 64) × (c.waits ≤ length stops.old) × (c.waits ≤ length required.old) × (c.waits ≤ length weights.old) }
    requires holds_serving { HoldsServing (sheet_of s.now c) cars.now.targets.now cars.now.lines.now cars.now.rooms.now cars.now.line_ids.now
        × (length cars.now.targets.now ≡ c.cars) × (length cars.now.line_ids.now ≡ c.lines) × HoldsIds (sheet_of s.now c) asked names.now }
    ensures { result ≡ built (λ j. has asked j && covered_by_cars (sheet_of s.now c) j) 64 }
{
    let n = c.waits as usize;
    let at = c.waits_from();
    fields::fill32(s, at, waiting::BITS, waiting::STOP, n, stops);
    fields::fill32(s, at, waiting::BITS, waiting::LINE, n, required);
    fields::fill_doubles(s, at, waiting::BITS, waiting::WEIGHT, 64, n, weights);
    let riders = Waiting {
        stops: &stops[..n],
        required: &required[..n],
        weights: &weights[..n],
    };
    covered_mask(cars, &riders, asked, names)
}

// The stops of the mask that are covered, where no more than N wait.
fn covered_within<const N: usize>(
    s: &[u8],
    c: Counts,
    cars: &Serving<'_>,
    asked: u64,
    names: &[u32],
) -> u64
    requires small { Small c × (length names.now ≡ 64) × (c.waits ≤ N) × (N ≤ 512) }
    requires holds_serving { HoldsServing (sheet_of s.now c) cars.now.targets.now cars.now.lines.now cars.now.rooms.now cars.now.line_ids.now
        × (length cars.now.targets.now ≡ c.cars) × (length cars.now.line_ids.now ≡ c.lines) × HoldsIds (sheet_of s.now c) asked names.now }
    ensures { result ≡ built (λ j. has asked j && covered_by_cars (sheet_of s.now c) j) 64 }
{
    let mut stops = [0u32; N];
    let mut required = [0u32; N];
    let mut weights = [0.0f64; N];
    covered_columns(
        s,
        c,
        cars,
        asked,
        names,
        &mut stops,
        &mut required,
        &mut weights,
    )
}

// The stops of the mask that are covered. Few riders have short columns, which are cleared sooner.
fn covered_waits(s: &[u8], c: Counts, cars: &Serving<'_>, asked: u64, names: &[u32]) -> u64
    requires small { Small c × (length names.now ≡ 64) }
    requires holds_serving { HoldsServing (sheet_of s.now c) cars.now.targets.now cars.now.lines.now cars.now.rooms.now cars.now.line_ids.now
        × (length cars.now.targets.now ≡ c.cars) × (length cars.now.line_ids.now ≡ c.lines) × HoldsIds (sheet_of s.now c) asked names.now }
    ensures { result ≡ built (λ j. has asked j && covered_by_cars (sheet_of s.now c) j) 64 }
{
    if c.waits <= 64 {
        covered_within::<64>(s, c, cars, asked, names)
    } else {
        covered_within::<512>(s, c, cars, asked, names)
    }
}

// The stops of the mask that are covered by cars, by the columns of cars and lines.
fn covered_by_columns(s: &[u8], c: Counts, asked: u64, names: &[u32]) -> u64
    requires { Small c × (length names.now ≡ 64) × HoldsIds (sheet_of s.now c) asked names.now }
    ensures { result ≡ built (λ j. has asked j && covered_by_cars (sheet_of s.now c) j) 64 }
{
    let cars = c.cars as usize;
    let lines = c.lines as usize;
    let mut targets = [0u32; 32];
    let mut served_lines = [0u32; 32];
    let mut rooms = [0.0f64; 32];
    let mut line_ids = [0u32; 8];
    fill_targets(s, c, &mut targets);
    fields::fill32(
        s,
        c.cars_from(),
        c.car_bits(),
        car::LINE,
        cars,
        &mut served_lines,
    );
    fill_rooms(s, c, &mut rooms);
    fields::fill32(
        s,
        c.lines_from(),
        line::BITS,
        line::ID,
        lines,
        &mut line_ids,
    );
    let serving = Serving {
        targets: &targets[..cars],
        lines: &served_lines[..cars],
        rooms: &rooms[..cars],
        line_ids: &line_ids[..lines],
    };
    covered_waits(s, c, &serving, asked, names)
}

// The stops of the mask that a car serves.
fn served_stops(s: &[u8], c: Counts, asked: u64, names: &[u32]) -> u64
    requires { Small c × (length names.now ≡ 64) × HoldsIds (sheet_of s.now c) asked names.now }
    ensures { result ≡ built (λ j. has asked j && any (serves (sheet_of s.now c) j) c.cars) 64 }
{
    let n = c.cars;
    let mut m: u64 = 0;
    for i in 0..n {
        let target = target_at(s, c.car_start(i));
        if target != 0 {
            m = with_named(m, names, c.stops as usize, target);
        }
    }
    mask::both(asked, m)
}

// The stops of the mask that are covered by cars. The mask has stops with a record only, and names holds their ids. Few stops are served by a
// car; the others are not looked at.
fn covered_by_cars(s: &[u8], c: Counts, asked: u64, names: &[u32]) -> u64
    requires { Small c × (length names.now ≡ 64) × HoldsIds (sheet_of s.now c) asked names.now }
    ensures { result ≡ built (λ j. has asked j && covered_by_cars (sheet_of s.now c) j) 64 }
{
    let served = served_stops(s, c, asked, names);
    if served == 0 {
        return 0;
    }
    covered_by_columns(s, c, served, names)
}

// The places whose names are those of closed landings.
pub fn closed_stops(s: &[u8], c: Counts, names: &[u32]) -> u64
    requires { Small c × (c.closures ≤ 64) × (length names.now ≡ 64) }
    ensures { result ≡ built (closed_in (sheet_of s.now c) names.now) 64 }
{
    let n = c.closures as usize;
    if n == 0 {
        return 0;
    }
    let mut ids = [0u32; 64];
    fields::fill32(
        s,
        c.closures_from(),
        closed::BITS,
        closed::STOP,
        n,
        &mut ids,
    );
    fields::named_stops(&ids, n, names, 64)
}

// The stops of the mask that are covered, by cars or since they are closed; the closed ones are at hand.
pub fn covered_stops(s: &[u8], c: Counts, asked: u64, closed: u64, names: &[u32]) -> u64
    requires small { Small c × (length names.now ≡ 64) × HoldsIds (sheet_of s.now c) asked names.now }
    requires closed_value { closed ≡ built (closed_in (sheet_of s.now c) names.now) 64 }
    ensures { result ≡ built (λ j. has asked j && covered (sheet_of s.now c) j) 64 }
{
    let cars = covered_by_cars(s, c, asked, names);
    mask::either(mask::both(asked, closed), cars)
}

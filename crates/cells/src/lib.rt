// From an accepted sheet to its cells: what is read of it once, and the rows of its idle cars.
#![tactic(auto)]

ghost use Rattle.std.specs.Prelude.{◌≡◌, ◌++◌, ◌+◌, ◌≤◌, ◌<◌, length, get_or, drop, Ok};
ghost use Rattle.std.specs.Float.{nan};
ghost use Rattle.laws.specs.Tables.{tab};
ghost use Rattle.layout.specs.Offsets.{Small};
ghost use Rattle.layout.specs.Records.{sheet_of, waiting_of, from};
ghost use Rattle.layout.specs.Verdict.{verdict};
ghost use Rattle.manifest.specs.World.{stop_id, stop_at};
ghost use Rattle.manifest.specs.Rising.{Rising};
ghost use Rattle.manifest.specs.Stops.{HoldsStops, AtHand, position_in};
ghost use Rattle.manifest.specs.Waiters.{with_rider};
ghost use Rattle.manifest.specs.Manifest.{riderless_call};
ghost use Rattle.mask.specs.Ones.{ones_of};
ghost use Rattle.pending.specs.Masks.{stop_mask, masks_of};
ghost use Rattle.rows.specs.MatrixLaws.{FilledRows};
ghost use Rattle.rows.specs.Gathered.{put_at, Cleared, Gathered};
ghost use Rattle.ranking.specs.RankingLaws.{HoldsRow};
ghost use Rattle.cells.specs.Survey.{SeenStops, Survey, coordinates, idle_mask};

use dispatch::Row;
use layout::{Counts, aboard, car, stop, waiting};
use manifest::{Stops, Waiters};
use mask::Ones;
use pending::StopMasks;
use rows::{Counted, Known};

// The ids and the points of the stops.
fn fill_stops(s: &[u8], c: Counts, ids: &mut [u32], xs: &mut [f64])
    requires { Small c × (length ids.old ≡ 64) × (length xs.old ≡ 128) }
    ensures ids { (length ids.new ≡ length ids.old)
        × (ids.new ≡ tab (stop_id (sheet_of s.now c)) c.stops ++ drop c.stops ids.old) }
    ensures points { (length xs.new ≡ length xs.old)
        × (xs.new ≡ coordinates (stop_at (sheet_of s.now c)) c.stops xs.old) }
{
    let n = c.stops as usize;
    let at = c.stops_from();
    let len = c.stop_bits();
    let w = c.across as usize;
    fields::fill32(s, at, len, stop::ID, n, ids);
    fields::fill_doubles(s, at, len, stop::POSITION, 64, n, &mut xs[0..64]);
    fields::fill_doubles(s, at, len, stop::ACROSS, w, n, &mut xs[64..128]);
}

// The ids and the points of the stops of an accepted sheet, and their masks.
pub fn see_stops(s: &[u8], c: Counts, ids: &mut [u32], xs: &mut [f64]) -> StopMasks
    requires { (verdict s.now ≡ Ok c) × (length ids.old ≡ 64) × (length xs.old ≡ 128) }
    ensures ids { (length ids.new ≡ length ids.old)
        × (ids.new ≡ tab (stop_id (sheet_of s.now c)) c.stops ++ drop c.stops ids.old) }
    ensures points { (length xs.new ≡ length xs.old)
        × (xs.new ≡ coordinates (stop_at (sheet_of s.now c)) c.stops xs.old) }
    ensures masks { result ≡ masks_of (sheet_of s.now c) }
{
    fill_stops(s, c, ids, xs);
    pending::stop_masks(s, c, ids)
}

// The cars and the destinations of those aboard.
pub fn fill_aboard(s: &[u8], c: Counts, acar: &mut [u32], adest: &mut [u32])
    requires { Small c × (length acar.old ≡ 512) × (length adest.old ≡ 512) }
    ensures cars { let of = sheet_of s.now c in
        (length acar.new ≡ length acar.old)
        × (acar.new ≡ tab (λ a. (of.aboard a).car) c.aboards ++ drop c.aboards acar.old) }
    ensures destinations { let of = sheet_of s.now c in
        (length adest.new ≡ length adest.old)
        × (adest.new ≡ tab (λ a. (of.aboard a).destination) c.aboards ++ drop c.aboards adest.old) }
{
    let n = c.aboards as usize;
    let at = c.aboards_from();
    fields::fill32(s, at, aboard::BITS, aboard::CAR, n, acar);
    fields::fill32(s, at, aboard::BITS, aboard::DESTINATION, n, adest);
}

// What waits at stop j, into its five places.
fn put_waiters(v: Waiters, j: usize, sums: &mut [f64])
    requires { (j < 64) × (length sums.old ≡ 320) }
    ensures { sums.new ≡ put_at sums.old j v }
{
    let at = j * 5;
    sums[at] = v.waitsum;
    sums[at + 1] = v.squares;
    sums[at + 2] = v.up;
    sums[at + 3] = v.down;
    sums[at + 4] = v.level;
}

// Nobody waits at the first n stops.
fn clear_waiters(n: usize, sums: &mut [f64])
    requires { (n ≤ 64) × (length sums.old ≡ 320) }
    ensures { Cleared n sums.old sums.new }
{
    for j in 0..n {
        put_waiters(Waiters::none(false), j, sums);
    }
}

// The rider of the record at a bit of the sheet is met at stop j.
fn met(v: Waiters, s: &[u8], at: u32, stops: &Stops, j: usize) -> Waiters
    requires { AtHand stops.now.ids.now stops.now.points.now stops.now.count × (j < stops.now.count) }
    ensures { let rider = waiting_of (from s.now at) in
        let xs = stops.now.points.now in
        let place = position_in stops.now.ids.now xs stops.now.count rider.destination in
        result ≡ with_rider v (get_or xs j nan) place rider.weight rider.wait }
{
    let dest = bits::field32(s, at, waiting::DESTINATION);
    let weight = fp::double(bits::field(s, at, waiting::WEIGHT, 64));
    let wait = bits::field(s, at, waiting::WAIT, 64);
    v.meet(stops, j, dest, weight, wait)
}

// What waits at each stop, five places of sums a stop, and where someone does: each rider is met once, at the stop whose id it names.
pub fn waiting<'a>(
    s: &'a [u8],
    c: Counts,
    ids: &'a [u32],
    xs: &'a [f64],
    calls: u64,
    sums: &mut [f64],
) -> u64
    requires { Small c × (length ids.now ≡ 64) × (length xs.now ≡ 128) × HoldsStops (sheet_of s.now c) ids.now xs.now c.stops
        × Rising (sheet_of s.now c) × (calls ≡ stop_mask (sheet_of s.now c) (riderless_call (sheet_of s.now c))) × (length sums.old ≡ 320) }
    ensures { Gathered (sheet_of s.now c) calls result sums.old sums.new }
{
    let n = c.stops as usize;
    let stops = Stops {
        ids,
        points: xs,
        count: n,
    };
    let first = c.waits_from();
    clear_waiters(n, sums);
    let mut someone: u64 = 0;
    for w in 0..c.waits {
        let at = first + waiting::BITS * w;
        let j = stops.index(bits::field32(s, at, waiting::STOP));
        if j < n {
            let v = rows::waiters_at(someone, calls, sums, j);
            put_waiters(met(v, s, at, &stops, j), j, sums);
            someone = mask::with(someone, j);
        }
    }
    someone
}

// The row of car i under a limit, where the stops and their masks are at hand; the known destinations of its riders are left in dests and sides.
pub fn row_of<'a>(
    s: &'a [u8],
    c: Counts,
    i: u32,
    limit: u32,
    ids: &'a [u32],
    xs: &'a [f64],
    masks: StopMasks,
    dests: &mut [f64],
    sides: &mut [f64],
) -> Row
    requires s_value { (verdict s.now ≡ Ok c) × (i < c.cars) × (length ids.now ≡ 64) × (length xs.now ≡ 128)
        × (length dests.old ≡ 512) × (length sides.old ≡ 512) }
    requires seen_stops { SeenStops (sheet_of s.now c) ids.now xs.now masks }
    ensures { HoldsRow (sheet_of s.now c) i limit result dests.new sides.new
        × (result.riders.count ≤ length dests.new) × (result.riders.count ≤ length sides.new) }
{
    let mut acar = [0u32; 512];
    let mut adest = [0u32; 512];
    fill_aboard(s, c, &mut acar, &mut adest);
    let known = Known::of(s, c, limit, ids, xs, &acar, &adest, masks);
    let car = sheet::car_at(s, c, i);
    known.row_for(car, dests, sides)
}

// The idle cars of a sheet, as a mask of their records.
fn idle_cars(s: &[u8], c: Counts) -> u64
    requires { Small c }
    ensures { result ≡ idle_mask (sheet_of s.now c) }
{
    let mut m: u64 = 0;
    for i in 0..c.cars {
        let listed = bits::flag(s, c.car_start(i), car::LISTED);
        m = mask::with_if(m, listed, i as usize);
    }
    m
}

// The records of a sheet's idle cars, listed.
pub fn list_cars(s: &[u8], c: Counts) -> Ones
    requires { Small c }
    ensures { result ≡ ones_of (idle_mask (sheet_of s.now c)) }
{
    mask::list_ones(idle_cars(s, c))
}

// The cells of the idle cars, a row each, how many pairs are ranked, and how many cells are held.
pub fn fill_matrix<'a>(
    s: &'a [u8],
    c: Counts,
    limit: u32,
    ids: &'a [u32],
    xs: &'a [f64],
    masks: StopMasks,
    stops: Ones,
    idle: Ones,
    columns: usize,
    matrix: &mut [u64],
) -> Counted
    requires s_value { (verdict s.now ≡ Ok c) × (length ids.now ≡ 64) × (length xs.now ≡ 128) × (stops.count ≤ columns)
        × (columns ≤ 64) × (2048 ≤ length matrix.old) }
    requires survey { Survey (sheet_of s.now c) ids.now xs.now masks stops idle }
    ensures { FilledRows (sheet_of s.now c) limit idle.count columns matrix.old result matrix.new }
{
    let mut acar = [0u32; 512];
    let mut adest = [0u32; 512];
    fill_aboard(s, c, &mut acar, &mut adest);
    let mut sums = [0.0f64; 320];
    let someone = waiting(s, c, ids, xs, masks.calls, &mut sums);
    let known = Known::of(s, c, limit, ids, xs, &acar, &adest, masks);
    rows::fill_rows(&known, someone, &sums, &stops, &idle, columns, matrix)
}

// The candidate cut: of a car's viable stops, the nearest that the limit keeps.
#![tactic(auto)]

ghost use Rattle.std.specs.Prelude.{◌≡◌, ◌<◌, length};
ghost use Rattle.laws.specs.Bools.{bit};
ghost use Rattle.laws.specs.Folds.{count};
ghost use Rattle.laws.specs.Tables.{tab};
ghost use Rattle.components.specs.Points.{distance};
ghost use Rattle.manifest.specs.Stops.{point_in};
ghost use Rattle.mask.specs.Mask.{built};
ghost use Rattle.assignment.specs.Candidates.{precedes};
ghost use Rattle.candidates.specs.Cut.{viable_by, comes_before, cut, Reaches};

use components::Point;

// The limit that cuts nothing.
const NO_LIMIT: u32 = 65535;

// The stops that are pending and on the car's line, and not barred to it.
pub fn viable_stops(pending: u64, restricted: u64, serves: u64) -> u64
    ensures { result ≡ built (viable_by pending restricted serves) 64 }
{
    mask::both(pending, mask::without(serves, restricted))
}

// How far each of 64 points is from x. By index: a point is two numbers of the other list.
fn fill_distances(xs: &[f64], x: Point, ds: &mut [f64])
    requires { (length xs.now ≡ 128) × (length ds.old ≡ 64) }
    ensures { ds.new ≡ tab (λ j. distance x (point_in xs.now j)) 64 }
{
    for j in 0..64 {
        ds[j] = x.distance(manifest::point(xs, j));
    }
}

// Of two stops at distances e and d, the first comes before the second: nearer, or as near and with the lower id, which is the lower index.
fn precedes(e: f64, k: usize, d: f64, j: usize) -> bool
    ensures { result ≡ precedes e k d j }
{
    if e < d {
        return true;
    }
    if d < e {
        return false;
    }
    k < j
}

// 1 where a viable stop k comes before stop j.
fn one_before(viable: u64, ds: &[f64], j: usize, k: usize) -> u32
    requires { (length ds.now ≡ 64) × (j < 64) × (k < 64) }
    ensures { result ≡ bit (comes_before viable ds.now j k) }
{
    u32::from(mask::has(viable, k) & precedes(ds[k], k, ds[j], j))
}

// A number of stops past which none is viable: few stops are counted in a few steps.
fn reach(viable: u64) -> usize
    ensures { Reaches viable result }
{
    if mask::past_stops(viable, 16) {
        return 64;
    }
    if mask::past_stops(viable, 8) { 16 } else { 8 }
}

// How many viable stops come before stop j; none is viable from e on.
fn count_before(viable: u64, ds: &[f64], j: usize, e: usize) -> u32
    requires { (length ds.now ≡ 64) × (j < 64) × Reaches viable e }
    ensures { result ≡ count (comes_before viable ds.now j) 64 }
{
    let mut n: u32 = 0;
    for k in 0..e {
        n += one_before(viable, ds, j, k);
    }
    n
}

// Whether the limit keeps stop j.
fn is_kept(viable: u64, ds: &[f64], limit: u32, j: usize, e: usize) -> bool
    requires { (length ds.now ≡ 64) × (j < 64) × Reaches viable e }
    ensures { result ≡ cut viable ds.now limit j }
{
    if !mask::has(viable, j) {
        return false;
    }
    limit == NO_LIMIT || count_before(viable, ds, j, e) < limit
}

// The stops that the limit keeps, one by one, up to the last that is viable.
fn cut_stops(viable: u64, ds: &[f64], limit: u32) -> u64
    requires { length ds.now ≡ 64 }
    ensures { result ≡ built (cut viable ds.now limit) 64 }
{
    let e = reach(viable);
    let mut m: u64 = 0;
    let mut j: usize = 0;
    while mask::past_stops(viable, j) {
        m = mask::with_if(m, is_kept(viable, ds, limit, j, e), j);
        j += 1;
    }
    m
}

// The kept stops of a car at x, where the stops stand at xs: all that are viable where they are not more than the limit.
pub fn kept_stops(viable: u64, xs: &[f64], x: Point, limit: u32) -> u64
    requires { length xs.now ≡ 128 }
    ensures { result ≡ built (cut viable (tab (λ j. distance x (point_in xs.now j)) 64) limit) 64 }
{
    if limit == NO_LIMIT {
        return viable;
    }
    if mask::size(viable) <= limit {
        return viable;
    }
    let mut ds = [0.0f64; 64];
    fill_distances(xs, x, &mut ds);
    cut_stops(viable, &ds, limit)
}

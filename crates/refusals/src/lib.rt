// The refusals of the kinds with few fields, of a record at bit at with its first field, after those counted. Reads past the end give 0, so every
// condition is computed and the first that holds is picked. Earlier stops and cars, and what was named before, are looked for in tables of ids.
#![tactic(auto)]

ghost use Rattle.std.specs.Prelude.{◌≡◌, not, ◌||◌, ◌≤◌, length, eqb};
ghost use Rattle.components.specs.declared.Kind.TheVariants.{Stop, Line, Aboard, Waiting};
ghost use Rattle.conditions.specs.Ids.{StopIds, CarIds};
ghost use Rattle.fields.specs.Named.{contains};
ghost use Rattle.layout.specs.Offsets.{Small, end_of};
ghost use Rattle.layout.specs.Table.{first};
ghost use Rattle.layout.specs.Records.{from, read};
ghost use Rattle.layout.specs.Verdict.{pick, body_refusal};

use conditions::{has_line, last_stop, mass_at, optional_at, pick, placed_at};
use fields::contains;
use layout::{Counts, aboard, line, stop, waiting};

// Kind 2: 9, 11.
pub fn stop_refusal(s: &[u8], c: Counts, at: u32, id: u32) -> u32
    requires { Small c × (at ≡ end_of c) × (id ≡ read (from s.now at) (first 32)) }
    ensures { result ≡ body_refusal s.now c Stop (from s.now (end_of c)) }
{
    let last = last_stop(s, c);
    let placed = placed_at(s, at, stop::POSITION, stop::ACROSS, c.across);
    pick((id == 0) | (id <= last), 9, pick(!placed, 11, 0))
}

// Kind 3: 9, 10.
pub fn line_refusal(s: &[u8], c: Counts, at: u32, id: u32) -> u32
    requires { Small c × (at ≡ end_of c) × (id ≡ read (from s.now at) (first 32)) }
    ensures { result ≡ body_refusal s.now c Line (from s.now (end_of c)) }
{
    let again = has_line(s, c, id);
    let past = mask::past_stops(bits::field(s, at, line::SERVES, 64), c.stops as usize);
    pick((id == 0) | again, 9, pick(past, 10, 0))
}

// Kind 5: 8, 9, 10.
pub fn aboard_refusal<'a>(s: &'a [u8], c: Counts, at: u32, car: u32, cars: &'a [u32]) -> u32
    requires { (at ≡ end_of c) × (car ≡ read (from s.now at) (first 32)) × CarIds s.now c cars.now }
    ensures { result ≡ body_refusal s.now c Aboard (from s.now (end_of c)) }
{
    let known = contains(cars, c.cars as usize, car);
    let destination = optional_at(s, at, aboard::HAS_DESTINATION);
    let late = pick((car == 0) | destination.zero, 9, pick(!known, 10, 0));
    pick(destination.unused, 8, late)
}

// Kind 6: 8, 9, 10, 11, 14.
pub fn waiting_refusal<'a>(s: &'a [u8], c: Counts, at: u32, stop: u32, stops: &'a [u32]) -> u32
    requires { (at ≡ end_of c) × (stop ≡ read (from s.now at) (first 32)) × StopIds s.now c stops.now }
    ensures { result ≡ body_refusal s.now c Waiting (from s.now (end_of c)) }
{
    let known = contains(stops, c.stops as usize, stop);
    let line = optional_at(s, at, waiting::HAS_LINE);
    let destination = optional_at(s, at, waiting::HAS_DESTINATION);
    let light = mass_at(s, at, waiting::WEIGHT);
    let long = bits::field(s, at, waiting::WAIT, 64) > 9_007_199_254_740_992;
    let late = pick(!known, 10, pick(!light, 11, pick(long, 14, 0)));
    let zero = (stop == 0) | (line.zero | destination.zero);
    pick(line.unused | destination.unused, 8, pick(zero, 9, late))
}

// Kinds 7 and 8, of which a stop has one at most: 9 where the id is 0 or was named before, 10 where it has no stop record.
pub fn one_a_stop<'a>(stop: u32, stops: &'a [u32], known: u32, named: &'a [u32], before: u32) -> u32
    requires { (known ≤ length stops.now) × (before ≤ length named.now) }
    ensures { result ≡ pick (eqb stop 0 || contains named.now before stop) 9 (pick (not (contains stops.now known stop)) 10 0) }
{
    let again = contains(named, before as usize, stop);
    let listed = contains(stops, known as usize, stop);
    pick((stop == 0) | again, 9, pick(!listed, 10, 0))
}

// What the refusals ask: an id among earlier records, absent fields, ranges; and which of several conditions is given. Reads past the end give 0.
#![tactic(auto)]

ghost use Rattle.std.specs.Prelude.{◌≡◌, ◌+◌, ◌<◌, ◌≤◌, ◌^◌};
ghost use Rattle.fp.specs.Ranges.{is_mass};
ghost use Rattle.layout.specs.Offsets.{Small};
ghost use Rattle.layout.specs.Table.{field};
ghost use Rattle.components.specs.Points.{is_placed};
ghost use Rattle.layout.specs.Records.{from, double, point};
ghost use Rattle.layout.specs.Refusals.{absent_set, present_zero, seen, has_line, last_stop};
ghost use Rattle.layout.specs.Verdict.{pick};

use layout::{Counts, line, record, stop};

// What is wrong with an optional id.
#[derive(Clone, Copy)]
pub struct Optional {
    pub unused: bool,
    pub zero: bool,
}

// The number where the condition holds, else the rest; 0 is no refusal, as in the definition (layout: Verdict, first_of), and no branch asks for it.
pub fn pick(b: bool, n: u32, rest: u32) -> u32
    ensures { result ≡ pick b n rest }
{
    if b { n } else { rest }
}

// Whether one of the first n records of a kind, len bits each from base, has this id in its first field.
fn seen(s: &[u8], base: u32, len: u32, n: u32, id: u32) -> bool
    requires { (base < 2 ^ 31) × (len ≤ 1000) × (n ≤ 65535) }
    ensures { result ≡ seen s.now base len n id }
{
    for i in 0..n {
        if bits::field32(s, base + len * i, record::BODY) == id {
            return true;
        }
    }
    false
}

pub fn has_line(s: &[u8], c: Counts, id: u32) -> bool
    requires { Small c }
    ensures { result ≡ has_line s.now c id }
{
    seen(s, c.lines_from(), line::BITS, c.lines, id)
}

// The id of the last stop record, 0 before the first.
pub fn last_stop(s: &[u8], c: Counts) -> u32
    requires { Small c }
    ensures { result ≡ last_stop s.now c }
{
    let n = c.stops;
    if n == 0 {
        return 0;
    }
    bits::field32(s, c.stop_start(n - 1), stop::ID)
}

// What an optional id is refused for, its present bit and the id after it in one read: absent with a one bit (8), present and 0 (9).
pub fn optional_at(s: &[u8], at: u32, present: u32) -> Optional
    ensures { (result.unused ≡ absent_set (from s.now at) (field present 1) (field (present + 1) 32))
        × (result.zero ≡ present_zero (from s.now at) (field present 1) (field (present + 1) 32)) }
{
    let both = bits::field(s, at, present, 33);
    Optional {
        unused: (both != 0) & (both < 4_294_967_296),
        zero: both == 4_294_967_296,
    }
}

// Whether the double at an offset is from 0 to 1,000,000,000.
pub fn mass_at(s: &[u8], at: u32, off: u32) -> bool
    ensures { result ≡ is_mass (double (from s.now at) (field off 64)) }
{
    fp::is_mass(records::double_at(s, at, off))
}

// Whether a position and a second coordinate of some bits are from -1,000,000 to 1,000,000 each.
pub fn placed_at(s: &[u8], at: u32, along: u32, across: u32, bits: u32) -> bool
    requires { bits ≤ 64 }
    ensures { result ≡ is_placed (point (from s.now at) (field along 64) (field across bits)) }
{
    let p = records::point_at(s, at, along, across, bits);
    fp::is_position(p.along) & fp::is_position(p.across)
}

// Whether a record may be put.
ghost use Rattle.std.specs.Prelude.{◌≡◌, ◌≤◌};
ghost use Rattle.layout.specs.Offsets.{Small, record_length};
ghost use Rattle.layout.specs.PlaceLaws.{all};
ghost use Rattle.writer.specs.Puts.{answer_of};

use crate::PutError;
use components::Kind;
use layout::{Counts, record};

// How many records there are.
pub fn count(c: Counts) -> u32
    requires { Small c }
    ensures { result ≡ all c }
{
    c.policies + c.stops + c.lines + c.cars + c.aboards + c.waits + c.demands + c.closures
}

// A record's length, where second coordinates have some bits.
fn record_bits(kind: Kind, across: u32) -> u32
    requires { across ≤ 64 }
    ensures { (result ≡ record_length across kind) × (result ≤ 801) }
{
    record::BODY + layout::body_length(kind, across) as u32
}

// What a record of a kind finds in a buffer of n bytes: the counts with it.
pub fn answer(n: usize, c: Counts, kind: Kind) -> Result<Counts, PutError>
    requires { Small c }
    ensures { result ≡ answer_of n c kind }
{
    let end = c.end_of() + record_bits(kind, c.across);
    if n < bits::bytes_for(end) {
        return Err(PutError::NoRoom);
    }
    if c.out_of_order(u64::from(kind)) {
        return Err(PutError::OutOfOrder);
    }
    if c.is_full(kind) || 65535 <= count(c) {
        return Err(PutError::Full);
    }
    Ok(c.next(kind))
}

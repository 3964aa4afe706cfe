// A writer of sheets into a lent buffer. Its state is the counts: kinds never fall and every kind has one length, so the counts say where the next
// record starts, which kind came last and which kind is full. A record that the reader would refuse by 2, 6 or 7 is not written.
#![tactic(auto)]

pub mod record;
mod room;

ghost use Rattle.std.specs.Prelude.{◌≡◌, length};
ghost use Rattle.layout.specs.Offsets.{Small, end_of};
ghost use Rattle.encoder.specs.Encoded.{record_at};
ghost use Rattle.writer.specs.Puts.{start_of, answer_of, error_number, left_of, head_put, sheet_bytes, finished, edition_code};

use crate::record::Record;
use encoder::Place;
use layout::{Counts, head};

// The editions of the format.
#[derive(Clone, Copy, Debug, PartialEq, Eq)]
pub enum Edition {
    First,
    Second,
}

// Why a record was not written: the buffer ends before it does, its kind may not follow the last one, or there are as many records as there may be.
#[derive(Clone, Copy, Debug, PartialEq, Eq)]
pub enum PutError {
    NoRoom,
    OutOfOrder,
    Full,
}

impl PutError {
    // The number of the reader's refusal that is spared.
    pub fn number(self) -> u32
        ensures { result ≡ error_number self }
    {
        match self {
            PutError::NoRoom => 2,
            PutError::OutOfOrder => 6,
            PutError::Full => 7,
        }
    }
}

// The code of an edition.
fn code(edition: Edition) -> u64
    ensures { result ≡ edition_code edition }
{
    match edition {
        Edition::First => 1,
        Edition::Second => 2,
    }
}

// Puts the head of a sheet of an edition; the count of records is 0 until finish.
pub fn start(s: &mut [u8], edition: Edition) -> Result<Counts, PutError>
    ensures { (result ≡ start_of (length s.old) edition)
        × (s.new ≡ left_of result s.old (head_put s.old edition)) }
{
    if s.len() < 3 {
        return Err(PutError::NoRoom);
    }
    let edition = code(edition);
    put::put(s, 0, head::EDITION, 8, edition);
    put::put(s, 0, head::COUNT, 16, 0);
    Ok(Counts::none(layout::across_bits(edition)))
}

// Puts a record after those counted, and answers the counts from then on; where it is not written, the buffer is left as it was.
pub fn put<R: Record>(s: &mut [u8], c: Counts, x: R) -> Result<Counts, PutError>
    requires { Small c }
    ensures { (result ≡ answer_of (length s.old) c R.KIND)
        × (s.new ≡ left_of result s.old (record_at s.old (end_of c) c.across R.KIND (R.values x))) }
{
    let next = room::answer(s.len(), c, R::KIND)?;
    let place = Place {
        at: c.end_of(),
        across: c.across,
    };
    x.put_at(s, place);
    Ok(next)
}

// Puts the number of records into the head and zero bits up to the byte's end, and answers how many bytes the sheet has.
pub fn finish(s: &mut [u8], c: Counts) -> usize
    requires { Small c }
    ensures { (result ≡ sheet_bytes c) × (s.new ≡ finished s.old c) }
{
    let end = c.end_of();
    put::put(s, 0, head::COUNT, 16, room::count(c) as u64);
    put::put(s, end, 0, bits::padding(end), 0);
    bits::bytes_for(end)
}

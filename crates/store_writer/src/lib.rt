// A writer of a store of weights into a lent buffer: records of 120 bits one after another. Its state is how many there are. A record that the reader
// would refuse by 2 or 7 is not written.
#![tactic(auto)]

ghost use Rattle.std.specs.Prelude.{◌≡◌, ◌<◌, length};
ghost use Rattle.values.specs.Values.{bits_of};
ghost use Rattle.store_writer.specs.Stored.{entry, entry_put, stored_of, stored_left, error_number};

use put::put;

// Why a record was not written: the buffer ends before it does, or a store has no more.
#[derive(Clone, Copy, Debug, PartialEq, Eq)]
pub enum StoreError {
    NoRoom,
    Full,
}

impl StoreError {
    // The number of the reader's refusal that is spared.
    pub fn number(self) -> u32
        ensures { result ≡ error_number self }
    {
        match self {
            StoreError::NoRoom => 2,
            StoreError::Full => 7,
        }
    }
}

// The four fields of record i.
fn put_fields(s: &mut [u8], i: u16, setting: u8, start: u32, issue: u16, weight: f64)
    ensures { s.new ≡ entry_put s.old i (entry setting start issue (bits_of weight)) }
{
    let at = 120 * (i as u32);
    put(s, at, 0, 8, setting as u64);
    put(s, at, 8, 32, start as u64);
    put(s, at, 40, 16, issue as u64);
    put(s, at, 56, 64, double_bits::bits_of(weight));
}

// Puts a record after n others, and answers how many there are from then on: a weight slot, the day from which it holds, the issue and the weight.
pub fn put_weight(
    s: &mut [u8],
    n: u16,
    setting: u8,
    start: u32,
    issue: u16,
    weight: f64,
) -> Result<u16, StoreError>
    ensures { (result ≡ stored_of (length s.old) n)
        × (s.new ≡ stored_left result s.old (entry_put s.old n (entry setting start issue (bits_of weight)))) }
{
    if s.len() < 15 * (n as usize) + 15 {
        return Err(StoreError::NoRoom);
    }
    if 256 <= n {
        return Err(StoreError::Full);
    }
    put_fields(s, n, setting, start, issue, weight);
    Ok(n + 1)
}

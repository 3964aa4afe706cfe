// Text in a lent buffer, put there piece by piece.
#![tactic(auto)]

ghost use Rattle.std.specs.Prelude.{◌+◌, ◌≤◌, length};
ghost use Rattle.text.specs.Text.{Put, decimal};

use itoa::Buffer;

// Puts a piece at a place, keeps the rest of the buffer, and answers where the next piece goes.
pub fn put(out: &mut [u8], at: usize, piece: &[u8]) -> usize
    requires { at + length piece.now ≤ length out.old }
    ensures { Put out.old at piece.now out.new result }
{
    for i in 0..piece.len() {
        out[at + i] = piece[i];
    }
    at + piece.len()
}

// Puts a number in decimal, and keeps the rest.
pub fn put_decimal(out: &mut [u8], at: usize, n: u64) -> usize
    requires { at + 20 ≤ length out.old }
    ensures { Put out.old at (decimal n) out.new result × (result ≤ at + 20) }
{
    let mut digits = Buffer::new();
    put(out, at, digits.format(n).as_bytes())
}

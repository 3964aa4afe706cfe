// A mask of 64 stops: the highest bit is the first stop record.
#![tactic(auto)]

ghost use Rattle.std.specs.Prelude.{◌≡◌, ◌&&◌, ◌||◌, not, ◌<◌, ◌+◌, ◌*◌, ◌^◌, eqb};
ghost use Rattle.laws.specs.Bools.{bit};
ghost use Rattle.laws.specs.Folds.{count};
ghost use Rattle.mask.specs.Mask.{has, built, past_stops};
ghost use Rattle.mask.specs.Ones.{ones_of};

// Whether stop j is in the mask.
pub fn has(mask: u64, j: usize) -> bool
    requires { j < 64 }
    ensures { result ≡ has mask j }
{
    (mask >> (63 - j)) & 1 == 1
}

// The stops of both masks.
pub fn both(a: u64, b: u64) -> u64
    ensures { result ≡ built (λ j. has a j && has b j) 64 }
{
    a & b
}

// The stops of either mask.
pub fn either(a: u64, b: u64) -> u64
    ensures { result ≡ built (λ j. has a j || has b j) 64 }
{
    a | b
}

// The stops of a that are not in b.
pub fn without(a: u64, b: u64) -> u64
    ensures { result ≡ built (λ j. has a j && not (has b j)) 64 }
{
    a & !b
}

// The mask with stop j.
pub fn with(mask: u64, j: usize) -> u64
    requires { j < 64 }
    ensures { result ≡ built (λ k. has mask k || eqb k j) 64 }
{
    mask | (1 << (63 - j))
}

// The mask with stop j where b holds: how a loop over the first stops builds a mask.
pub fn with_if(mask: u64, b: bool, j: usize) -> u64
    requires { j < 64 }
    ensures { result ≡ built (λ k. has mask k || (b && eqb k j)) 64 }
{
    if b { with(mask, j) } else { mask }
}

// One digit more at the low end: how a loop over the stops builds a mask.
pub fn pushed(mask: u64, b: bool) -> u64
    requires { mask < 2 ^ 63 }
    ensures { result ≡ mask * 2 + bit b }
{
    if b { mask * 2 + 1 } else { mask * 2 }
}

// How many stops the mask has.
pub fn size(mask: u64) -> u32
    ensures { result ≡ count (has mask) 64 }
{
    u64::count_ones(mask)
}

// Whether the mask has a stop past the first n.
pub fn past_stops(mask: u64, n: usize) -> bool
    ensures { result ≡ past_stops mask n }
{
    if n < 64 { mask << n != 0 } else { false }
}

// The places of a mask's ones in order, with zeros past them, and how many they are: an array, since memory is fixed and nothing is on the heap.
#[derive(Clone, Copy)]
pub struct Ones {
    pub at: [usize; 64],
    pub count: usize,
}

// The ones of a mask, listed; past the last one nothing is looked at, so a test of the mask ends the loop, and no range.
pub fn list_ones(mask: u64) -> Ones
    ensures { result ≡ ones_of mask }
{
    let mut at = [0usize; 64];
    let mut count: usize = 0;
    let mut j: usize = 0;
    while past_stops(mask, j) {
        if has(mask, j) {
            at[count] = j;
            count += 1;
        }
        j += 1;
    }
    Ones { at, count }
}

// Whole numbers of two words, hi * 2^64 + lo, and shifts.
ghost use Rattle.std.specs.Prelude.{◌≡◌, ◌+◌, ◌-◌, ◌*◌, ◌^◌, ◌<◌, ◌≤◌};
ghost use Rattle.multiply_add.specs.Steps.{wide, Holds, Jammed};

// The derived order is the numbers': the higher word first.
#[derive(Clone, Copy, PartialEq, Eq, PartialOrd, Ord)]
pub(crate) struct Wide {
    pub(crate) hi: u64,
    pub(crate) lo: u64,
}

impl Wide {
    // A number of 128 bits in its two words.
    fn of(n: u128) -> Wide
        ensures { wide result.hi result.lo ≡ n }
    {
        Wide {
            hi: (n >> 64) as u64,
            lo: (n % 0x1_0000_0000_0000_0000) as u64,
        }
    }

    // The product of two significands.
    pub(crate) fn product(a: u64, b: u64) -> Wide
        requires { (a < 2 ^ 53) × (b < 2 ^ 53) }
        ensures { Holds (a * b) (2 ^ 42) result.hi result.lo }
    {
        Wide::of(u128::from(a) * u128::from(b))
    }

    // x * 2^d.
    pub(crate) fn shifted(x: u64, d: u64) -> Wide
        requires { d < 64 }
        ensures { Holds (x * 2 ^ d) (2 ^ d) result.hi result.lo }
    {
        Wide::of(u128::from(x) << d)
    }

    // A significand times 2^d.
    pub(crate) fn significand(c: u64, d: u64) -> Wide
        requires { (c < 2 ^ 53) × (d < 74) }
        ensures { Holds (c * 2 ^ d) (2 ^ 63) result.hi result.lo }
    {
        Wide::of(u128::from(c) << d)
    }

    // A product of significands times 2^d.
    pub(crate) fn shift_left(self, d: u64) -> Wide
        requires { (self.hi < 2 ^ 42) × (d < 22) }
        ensures { Holds (wide self.hi self.lo * 2 ^ d) (2 ^ 63) result.hi result.lo }
    {
        Wide::of(((u128::from(self.hi) << 64) + u128::from(self.lo)) << d)
    }

    pub(crate) fn plus(self, other: Wide) -> Wide
        requires { (self.hi < 2 ^ 63) × (other.hi < 2 ^ 63) }
        ensures { wide result.hi result.lo ≡ wide self.hi self.lo + wide other.hi other.lo }
    {
        let (lo, carry) = self.lo.overflowing_add(other.lo);
        Wide {
            hi: self.hi + other.hi + u64::from(carry),
            lo,
        }
    }

    pub(crate) fn minus(self, other: Wide) -> Wide
        requires { wide other.hi other.lo ≤ wide self.hi self.lo }
        ensures { wide result.hi result.lo ≡ wide self.hi self.lo - wide other.hi other.lo }
    {
        let (lo, borrow) = self.lo.overflowing_sub(other.lo);
        Wide {
            hi: self.hi - other.hi - u64::from(borrow),
            lo,
        }
    }
}

// x without its k lowest bits, made odd where one of them was set: what is cut off still counts in a rounding. With u64::from of the last test in
// place of 0 and 1 the proof did not close.
pub(crate) fn shift_right_jam(x: u64, k: u64) -> u64
    ensures { Jammed x k result }
{
    if k < 64 {
        let q = x >> k;
        if q << k == x { q } else { q + (1 - q % 2) }
    } else if x == 0 {
        0
    } else {
        1
    }
}

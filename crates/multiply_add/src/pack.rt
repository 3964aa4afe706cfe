// From an exact sum of two words to the double: normalised by its leading zeros, rounded once, packed.
ghost use Rattle.std.specs.Prelude.{◌≡◌, ◌+◌, ◌-◌, ◌*◌, ◌^◌, ◌<◌};
ghost use Rattle.std.specs.Float.{binary64};
ghost use Rattle.std.specs.Float.Ieee.{units};
ghost use Rattle.std.specs.Float.Ieee.Nearest.{closest};
ghost use Rattle.multiply_add.specs.Steps.{wide, once, Sticky, Normalised, Packs, Rounds};

use super::words::Wide;

// w * 2^up
#[derive(Clone, Copy)]
pub(crate) struct Normal {
    pub(crate) w: u64,
    pub(crate) up: u64,
}

// The higher word, made odd where the lower is not 0.
pub(crate) fn sticky(n: Wide) -> u64
    ensures { Sticky n.hi n.lo result }
{
    if n.lo == 0 {
        n.hi
    } else {
        n.hi + (1 - n.hi % 2)
    }
}

// One word that rounds as two do: their 64 leading bits, the last made odd where more follow.
pub(crate) fn normalise(n: Wide) -> Normal
    ensures { Normalised (wide n.hi n.lo) result.w result.up }
{
    if n.hi == 0 {
        Normal { w: n.lo, up: 0 }
    } else {
        let zeros = n.hi.leading_zeros() as u64;
        let low = Wide::shifted(n.lo, zeros);
        let leading = Wide {
            hi: (n.hi << zeros) + low.hi,
            lo: low.lo,
        };
        Normal {
            w: sticky(leading),
            up: 64 - zeros,
        }
    }
}

// w / 2^t to the nearest whole number, ties to even.
fn nearest(w: u64, t: u64) -> u64
    ensures { result ≡ closest w (2 ^ t) }
{
    if t == 0 {
        w
    } else if t < 64 {
        let q = w >> t;
        let rest = w - (q << t);
        let half = 1 << (t - 1);
        if rest < half {
            q
        } else if rest == half {
            q + q % 2
        } else {
            q + 1
        }
    } else if t == 64 {
        u64::from(w > 0x8000_0000_0000_0000)
    } else {
        0
    }
}

// The double of q * 2^k least doubles. A carry out of q is one more in the exponent, and past the largest double it is the infinity.
fn pack(neg: bool, q: u64, k: u64) -> f64
    requires { Packs q k }
    ensures { result ≡ units binary64 neg q k }
{
    let size = (k * 0x10_0000_0000_0000 + q).min(0x7ff0_0000_0000_0000);
    let sign = u64::from(neg) << 63;
    f64::from_bits(sign + size)
}

// w * 2^at units of 2^-2148 as a whole number of 2^k least doubles, rounded.
fn rounded(w: u64, at: u64, k: u64) -> u64
    requires { Rounds w at k }
    ensures { result ≡ closest (w * 2 ^ at) (2 ^ (1074 + k)) }
{
    let unit = 1074 + k;
    if at < unit {
        nearest(w, unit - at)
    } else {
        w << (at - unit)
    }
}

// How many bits above the least double's a double drops of a number of so many bits: 1074 lie below the least double, and 53 are kept.
fn dropped(length: u64) -> u64
    ensures { result ≡ length - 1127 }
{
    length.saturating_sub(1127)
}

// w * 2^at units of 2^-2148 to the nearest double.
pub(crate) fn round(neg: bool, w: u64, at: u64) -> f64
    requires { at < 4200 }
    ensures { result ≡ once neg (w * 2 ^ at) }
{
    if w == 0 {
        return pack(neg, 0, 0);
    }
    let z = w.leading_zeros() as u64;
    let k = dropped(at + (64 - z));
    let q = rounded(w, at, k);
    pack(neg, q, k)
}

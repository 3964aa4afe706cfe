// The square root of a double, correctly rounded, from the bits: IEEE 754's squareRoot. A finite double above zero is taken apart and written as
// digits * 4^half (unpack). The whole root of its digits is found two binary digits a turn, as by hand, and has the 53 digits of a double
// (whole_root). What is left of the digits says whether the root lies above the middle to the next double (root_bits). std's
// f64::sqrt is an instruction of the processor, whose result is trusted and not proved.
#![tactic(auto)]

ghost use Rattle.std.specs.Prelude.{◌≡◌, ◌+◌, ◌*◌, ◌^◌, ◌≤◌, ◌<◌};
ghost use Rattle.std.specs.Float.{binary64};
ghost use Rattle.std.specs.Float.Ieee.{of_bits};
ghost use Rattle.fp.specs.Fields.{field_one};
ghost use Rattle.rounding.specs.Unpack.{significand_of, exponent_of};
ghost use Rattle.square_root.specs.SquareRoot.{nearest_root, square_root};
ghost use Rattle.square_root.specs.Steps.{Evened, Rooted};

// digits * 4^half
#[derive(Clone, Copy)]
struct Parts {
    digits: u64,
    half: u64,
}

// A whole root, and what its square leaves.
#[derive(Clone, Copy)]
struct Root {
    whole: u64,
    rest: u64,
}

// d * 2^k, d of 53 digits.
fn even(d: u64, k: u64) -> Parts
    requires { (field_one ≤ d) × (d < 2 * field_one) × (k < 2099) }
    ensures { Evened d k result.digits result.half }
{
    let half = k / 2;
    if k % 2 == 0 {
        Parts { digits: d, half }
    } else {
        Parts {
            digits: 2 * d,
            half,
        }
    }
}

// A pattern whose significand is not 0, times 2^52.
fn unpack(b: u64) -> Parts
    requires { 0 < significand_of b }
    ensures { Evened (significand_of b * 2 ^ exponent_of b) 52 result.digits result.half }
{
    let significand = rounding::significand(b);
    let up = u64::from(significand.leading_zeros()) - 11;
    even(significand << up, rounding::exponent(b) + (52 - up))
}

// The whole root of d * 2^52, of the digits passed so far the whole root, and what its square leaves of them, and the digits to come.
fn whole_root(d: u64) -> Root
    requires { d < 4 * field_one }
    ensures { Rooted (d * field_one) result.whole result.rest }
{
    let mut whole = 0;
    let mut rest = 0;
    let mut to_come = d;
    for _ in 0..53_u64 {
        let passed = 4 * rest + to_come / 0x10_0000_0000_0000;
        to_come = to_come % 0x10_0000_0000_0000 * 4;
        if passed > 4 * whole {
            rest = passed - (4 * whole + 1);
            whole = 2 * whole + 1;
        } else {
            rest = passed;
            whole *= 2;
        }
    }
    Root { whole, rest }
}

// The bits of the root of a pattern whose significand is not 0, its sign left aside.
fn root_bits(b: u64) -> u64
    requires { 0 < significand_of b }
    ensures { (result < 0x7ff0_0000_0000_0000) × (of_bits binary64 result ≡ nearest_root (significand_of b * 2 ^ exponent_of b)) }
{
    let Parts { digits, half } = unpack(b);
    let Root { whole, rest } = whole_root(digits);
    let nearest = if rest > whole { whole + 1 } else { whole };
    (half + 485) * 0x10_0000_0000_0000 + nearest
}

// f64::sqrt, of any double.
pub fn sqrt(x: f64) -> f64
    ensures { result ≡ square_root x }
{
    if x > 0.0 && fp::finite(x) {
        f64::from_bits(root_bits(x.to_bits()))
    } else if x >= 0.0 {
        x
    } else {
        f64::NAN
    }
}

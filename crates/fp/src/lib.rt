// Doubles: fp.rs, and what units.rs, the costs and the sheet's ranges need of floats.
#![tactic(auto)]

ghost use Rattle.std.specs.Prelude.{◌≡◌, from_bits};
ghost use Rattle.std.specs.Float.{binary64};
ghost use Rattle.fp.specs.Num.{abs, max_zero, finite, fma, lesser, natural, apart};
ghost use Rattle.fp.specs.Ranges.{within, is_position, is_speed, is_mass, is_threshold, is_tick_rate};

// f64::abs: a zero's sign is cleared too.
pub fn abs(x: f64) -> f64
    ensures { result ≡ abs x }
{
    x.abs()
}

// The greater of x and 0.0: 0.0 for a NaN, and for either zero, where `f64::max` may answer either.
pub fn max_zero(x: f64) -> f64
    ensures { result ≡ max_zero x }
{
    if x > 0.0 { x } else { 0.0 }
}

// Neither a NaN nor an infinity.
pub fn finite(x: f64) -> bool
    ensures { result ≡ finite x }
{
    x.is_finite()
}

// The product rounded, then the sum: `f64::mul_add` rounds once.
pub fn fma(a: f64, b: f64, c: f64) -> f64
    ensures { result ≡ fma a b c }
{
    a * b + c
}

// The lesser of two, the first where neither is less, as `f64::min` need not answer.
pub fn lesser(a: f64, b: f64) -> f64
    ensures { result ≡ lesser a b }
{
    if b < a { b } else { a }
}

// How far apart two coordinates are, the same both ways.
#[tactic(auto, unfolding(crate::specs::Num::apart))]
pub fn apart(a: f64, b: f64) -> f64
    ensures { result ≡ apart a b }
{
    abs(a - b)
}

// n as f64, exact up to 2^53.
pub fn natural(n: u64) -> f64
    ensures { result ≡ natural n }
{
    std::num::nearest_u64_to_f64(n)
}

// The double that 64 bits stand for; every NaN pattern is the one NaN.
pub fn double(b: u64) -> f64
    ensures { result ≡ from_bits binary64 b }
{
    if b & 0x7fff_ffff_ffff_ffff > 0x7ff0_0000_0000_0000 {
        f64::NAN
    } else {
        f64::from_bits(b)
    }
}

// lo to hi, both ends inside; a NaN is outside.
fn within(lo: f64, x: f64, hi: f64) -> bool
    ensures { result ≡ within lo x hi }
{
    lo <= x && x <= hi
}

#[tactic(auto, unfolding(crate::specs::Ranges::is_position))]
pub fn is_position(x: f64) -> bool
    ensures { result ≡ is_position x }
{
    within(-1_000_000.0, x, 1_000_000.0)
}

// 0, or 1/1,024 to 1,000
#[tactic(auto, unfolding(crate::specs::Ranges::is_speed))]
pub fn is_speed(x: f64) -> bool
    ensures { result ≡ is_speed x }
{
    x == 0.0 || within(0.0009765625, x, 1_000.0)
}

#[tactic(auto, unfolding(crate::specs::Ranges::is_mass))]
pub fn is_mass(x: f64) -> bool
    ensures { result ≡ is_mass x }
{
    within(0.0, x, 1_000_000_000.0)
}

#[tactic(auto, unfolding(crate::specs::Ranges::is_threshold))]
pub fn is_threshold(x: f64) -> bool
    ensures { result ≡ is_threshold x }
{
    within(0.0, x, 1_000.0)
}

#[tactic(auto, unfolding(crate::specs::Ranges::is_tick_rate))]
pub fn is_tick_rate(x: f64) -> bool
    ensures { result ≡ is_tick_rate x }
{
    within(1.0, x, 1_000_000.0)
}

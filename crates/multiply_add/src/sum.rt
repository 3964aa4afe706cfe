// The product of two doubles and a third: unpacked, aligned, added exactly. A finite double is significand * 2^exponent least doubles, of 2^-1074; a
// product of two is a whole number of 2^-2148, and from there all places here are counted.
ghost use Rattle.std.specs.Prelude.{◌≡◌, ◌*◌, ◌^◌, ◌<◌, ◌≤◌, not};
ghost use Rattle.std.specs.Float.Ieee.{unlike};
ghost use Rattle.multiply_add.specs.Steps.{wide, product_exponent, both, Fit, Aligned, Sums, Terms};

use super::pack::{self, Normal};
use super::words::{self, Wide};

// Two terms at one place: product * 2^at and term * 2^at.
#[derive(Clone, Copy)]
pub(crate) struct Lined {
    pub(crate) product: Wide,
    pub(crate) term: Wide,
    pub(crate) at: u64,
}

// A sign and a size.
#[derive(Clone, Copy)]
struct Total {
    neg: bool,
    sum: Wide,
}

// The place of a product; a product of 0 has the lowest.
#[tactic(auto, unfolding(crate::specs::Steps::product_exponent))]
fn product_exponent(m: u64, n: u64, k: u64, l: u64) -> u64
    requires { (k < 4096) × (l < 4096) }
    ensures { result ≡ product_exponent m n k l }
{
    if m == 0 || n == 0 { 0 } else { k + l }
}

// The product at p, above the term c at q: it is shifted down to c where there is room, and else c is cut.
fn align_above(product: Wide, p: u64, c: u64, q: u64) -> Lined
    requires { Fit product.hi product.lo p c q × (q < p) }
    ensures { Aligned (wide product.hi product.lo) p c q result.product.hi result.product.lo result.term.hi result.term.lo result.at }
{
    let d = p - q;
    if d < 22 {
        Lined {
            product: product.shift_left(d),
            term: Wide { hi: 0, lo: c },
            at: q,
        }
    } else {
        Lined {
            product: product.shift_left(21),
            term: Wide {
                hi: 0,
                lo: words::shift_right_jam(c, d - 21),
            },
            at: p - 21,
        }
    }
}

// The term c at q, not below the product at p: it is shifted down to the product where there is room, and else the product is cut.
fn align_below(product: Wide, p: u64, c: u64, q: u64) -> Lined
    requires { Fit product.hi product.lo p c q × (p ≤ q) }
    ensures { Aligned (wide product.hi product.lo) p c q result.product.hi result.product.lo result.term.hi result.term.lo result.at }
{
    let d = q - p;
    if d < 74 {
        Lined {
            product,
            term: Wide::significand(c, d),
            at: p,
        }
    } else {
        let leading = pack::sticky(product);
        Lined {
            product: Wide {
                hi: 0,
                lo: words::shift_right_jam(leading, d - 74),
            },
            term: Wide { hi: 0, lo: c << 10 },
            at: q - 10,
        }
    }
}

// Both at one place: exactly where both fit, and else the far smaller one cut and made odd.
fn align(product: Wide, p: u64, c: u64, q: u64) -> Lined
    requires { Fit product.hi product.lo p c q }
    ensures { Aligned (wide product.hi product.lo) p c q result.product.hi result.product.lo result.term.hi result.term.lo result.at }
{
    if q < p {
        align_above(product, p, c, q)
    } else {
        align_below(product, p, c, q)
    }
}

// Two terms of the sign s.
fn like_signs(s: bool, a: Wide, b: Wide) -> Total
    requires { (a.hi < 2 ^ 63) × (b.hi < 2 ^ 63) }
    ensures { Sums s (wide a.hi a.lo) s (wide b.hi b.lo) result.neg (wide result.sum.hi result.sum.lo) }
{
    Total {
        neg: s,
        sum: a.plus(b),
    }
}

// The first has the sign s, and the second the other. Where they cancel the sum is +0.
fn unlike_signs(s: bool, a: Wide, b: Wide) -> Total
    ensures { Sums s (wide a.hi a.lo) (not s) (wide b.hi b.lo) result.neg (wide result.sum.hi result.sum.lo) }
{
    if a < b {
        return Total {
            neg: !s,
            sum: b.minus(a),
        };
    }
    let sum = a.minus(b);
    if b < a {
        Total { neg: s, sum }
    } else {
        Total { neg: false, sum }
    }
}

// The exact sum of two terms at one place.
fn signed_sum(s: bool, a: Wide, t: bool, b: Wide) -> Total
    requires { (a.hi < 2 ^ 63) × (b.hi < 2 ^ 63) }
    ensures { Sums s (wide a.hi a.lo) t (wide b.hi b.lo) result.neg (wide result.sum.hi result.sum.lo) }
{
    if s == t {
        like_signs(s, a, b)
    } else {
        unlike_signs(s, a, b)
    }
}

pub(crate) fn product_sign(s: bool, t: bool) -> bool
    ensures { result ≡ unlike s t }
{
    s != t
}

// The product of the patterns x and y, and the pattern z, at one place.
pub(crate) fn terms(x: u64, y: u64, z: u64) -> Lined
    ensures { Terms x y z result.product.hi result.product.lo result.term.hi result.term.lo result.at }
{
    let m = rounding::significand(x);
    let n = rounding::significand(y);
    let p = product_exponent(m, n, rounding::exponent(x), rounding::exponent(y));
    let product = Wide::product(m, n);
    let c = rounding::significand(z);
    let q = rounding::exponent(z) + 1074;
    align(product, p, c, q)
}

// The sum of two terms at one place, the product's of the sign s and the other's of t, rounded once.
pub(crate) fn rounded_sum(s: bool, t: bool, lined: Lined) -> f64
    requires { (lined.product.hi < 2 ^ 63) × (lined.term.hi < 2 ^ 63) × (lined.at < 4100) }
    ensures { result ≡ both s (wide lined.product.hi lined.product.lo * 2 ^ lined.at) t (wide lined.term.hi lined.term.lo * 2 ^ lined.at) }
{
    let total = signed_sum(s, lined.product, t, lined.term);
    let Normal { w, up } = pack::normalise(total.sum);
    pack::round(total.neg, w, lined.at + up)
}

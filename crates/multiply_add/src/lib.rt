// a × b + c with one rounding, from the bits: IEEE 754's fusedMultiplyAdd, to nearest and ties to even. The product stands in two words (words).
// Both terms are brought to one place and added exactly (sum). The leading zeros of that sum say how many digits a double keeps, and those are
// rounded and packed (pack). Subnormal results need no case of their own. The value is that of std's
// f64::mul_add; the steps stand here because must-fail/ changes them, one by one.
#![tactic(auto)]

mod pack;
mod sum;
mod words;

ghost use Rattle.std.specs.Prelude.{◌≡◌, true};
ghost use Rattle.fp.specs.Num.{finite};
ghost use Rattle.multiply_add.specs.MulAdd.{mul_add};

// Of three finite values.
fn fused(a: f64, b: f64, c: f64) -> f64
    requires { (finite a ≡ true) × (finite b ≡ true) × (finite c ≡ true) }
    ensures { result ≡ mul_add a b c }
{
    let x = a.to_bits();
    let y = b.to_bits();
    let z = c.to_bits();
    let lined = sum::terms(x, y, z);
    let s = sum::product_sign(x >= 0x8000_0000_0000_0000, y >= 0x8000_0000_0000_0000);
    sum::rounded_sum(s, z >= 0x8000_0000_0000_0000, lined)
}

// f64::mul_add, of any doubles.
pub fn mul_add(a: f64, b: f64, c: f64) -> f64
    ensures { result ≡ mul_add a b c }
{
    if fp::finite(a) && fp::finite(b) {
        if fp::finite(c) { fused(a, b, c) } else { c }
    } else {
        a * b + c
    }
}

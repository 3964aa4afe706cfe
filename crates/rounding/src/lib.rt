// Rounding once, to the nearest double, in whole numbers: see specs/. The code takes a double apart: a finite one is significand * 2^exponent least
// doubles, of 2^-1074.
#![tactic(auto)]

ghost use Rattle.std.specs.Prelude.{◌≡◌};
ghost use Rattle.rounding.specs.Unpack.{significand_of, exponent_of};

// The significand of a pattern, with its leading digit where the field is not 0.
#[tactic(auto, unfolding(crate::specs::Unpack::significand_of))]
pub fn significand(b: u64) -> u64
    ensures { result ≡ significand_of b }
{
    let field = (b >> 52) % 2048;
    let digits = b % 0x10_0000_0000_0000;
    if field == 0 {
        digits
    } else {
        digits + 0x10_0000_0000_0000
    }
}

// The place of the significand's last digit above the least double.
#[tactic(auto, unfolding(crate::specs::Unpack::exponent_of))]
pub fn exponent(b: u64) -> u64
    ensures { result ≡ exponent_of b }
{
    let field = (b >> 52) % 2048;
    field.saturating_sub(1)
}

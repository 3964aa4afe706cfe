// The numbers that the fields of a record stand for, where they are neither numbers nor codes: those are of the crate components.
#![tactic(auto)]

ghost use Rattle.std.specs.Prelude.{◌≡◌};
ghost use Rattle.values.specs.Values.{phase_stop, threshold_present, threshold_bits};

use components::Phase;

// The stop that a moving phase holds, 0 of any other.
pub fn phase_stop(phase: Phase) -> u32
    ensures { result ≡ phase_stop phase }
{
    match phase {
        Phase::MovingToStop(id) | Phase::Repositioning(id) => id,
        _ => 0,
    }
}

// A threshold's present bit.
pub fn threshold_present(threshold: Option<f64>) -> u64
    ensures { result ≡ threshold_present threshold }
{
    u64::from(threshold.is_some())
}

// Its bits, 0 where it is absent.
pub fn threshold_bits(threshold: Option<f64>) -> u64
    ensures { result ≡ threshold_bits threshold }
{
    threshold.map_or(0, double_bits::bits_of)
}

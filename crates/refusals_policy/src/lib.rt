// The refusals of a policy record at bit at, after those counted: 8, 11, 12.
#![tactic(auto)]

ghost use Rattle.std.specs.Prelude.{◌≡◌};
ghost use Rattle.components.specs.declared.Kind.TheVariants.{Policy};
ghost use Rattle.layout.specs.Offsets.{end_of};
ghost use Rattle.layout.specs.Records.{from};
ghost use Rattle.layout.specs.Refusals.{unused_weights, refusal8_policy, refusal11_policy};
ghost use Rattle.layout.specs.Verdict.{body_refusal};

use components::Strategy;
use conditions::pick;
use layout::{Counts, policy};

// Whether one of the six weights has a one bit.
fn any_weight(s: &[u8], at: u32) -> bool
    ensures { result ≡ unused_weights Strategy.Scan (from s.now at) }
{
    let w0 = bits::field(s, at, policy::W0, 64);
    let w1 = bits::field(s, at, policy::W1, 64);
    let w2 = bits::field(s, at, policy::W2, 64);
    let w3 = bits::field(s, at, policy::W3, 64);
    let w4 = bits::field(s, at, policy::W4, 64);
    let w5 = bits::field(s, at, policy::W5, 64);
    (w0 != 0) | ((w1 != 0) | ((w2 != 0) | ((w3 != 0) | ((w4 != 0) | (w5 != 0)))))
}

// 8: strategy 3, or a one bit in a weight that the strategy leaves unused.
fn unused_weights(s: &[u8], at: u32) -> bool
    ensures { result ≡ refusal8_policy (from s.now at) }
{
    let strategy = Strategy::of_code(bits::field(s, at, policy::STRATEGY, 2));
    match strategy {
        Strategy::Etd => bits::field(s, at, policy::W5, 64) != 0,
        Strategy::Rsr => false,
        Strategy::Scan => any_weight(s, at),
        Strategy::Unknown => true,
    }
}

// 11: the tick rate or a weight out of its range.
fn out_of_range(s: &[u8], at: u32) -> bool
    ensures { result ≡ refusal11_policy (from s.now at) }
{
    let rate = fp::is_tick_rate(records::double_at(s, at, policy::RATE));
    let w0 = conditions::mass_at(s, at, policy::W0);
    let w1 = conditions::mass_at(s, at, policy::W1);
    let w2 = conditions::mass_at(s, at, policy::W2);
    let w3 = conditions::mass_at(s, at, policy::W3);
    let w4 = conditions::mass_at(s, at, policy::W4);
    let w5 = conditions::mass_at(s, at, policy::W5);
    !(rate & (w0 & (w1 & (w2 & (w3 & (w4 & w5))))))
}

// Kind 1: 8, 11, 12.
pub fn policy_refusal(s: &[u8], c: Counts, at: u32) -> u32
    requires { at ≡ end_of c }
    ensures { result ≡ body_refusal s.now c Policy (from s.now (end_of c)) }
{
    let none = bits::field(s, at, policy::LIMIT, 16) == 0;
    let late = pick(none, 12, 0);
    pick(
        unused_weights(s, at),
        8,
        pick(out_of_range(s, at), 11, late),
    )
}

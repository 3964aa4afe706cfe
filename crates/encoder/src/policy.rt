// A policy's body in two parts.
ghost use Rattle.std.specs.Prelude.{◌≡◌, [], ◌∷◌};
ghost use Rattle.components.specs.Codes.{strategy_code, traffic_code};
ghost use Rattle.layout.specs.Table.{policy_strategy_field, policy_limit_field, policy_rate_field, policy_traffic_field};
ghost use Rattle.layout.specs.Table.{policy_w0_field, policy_w1_field, policy_w2_field, policy_w3_field, policy_w4_field, policy_w5_field};
ghost use Rattle.values.specs.Values.{bits_of};
ghost use Rattle.encoder.specs.Encoded.{fields_put};

use crate::parts::put_double;
use components::Policy;
use layout::policy;
use put::put;

// What stands before the weights.
pub fn put_terms(s: &mut [u8], at: u32, limit: u16, x: Policy)
    ensures { s.new ≡ fields_put s.old at (policy_strategy_field ∷ policy_limit_field ∷ policy_rate_field ∷ policy_traffic_field ∷ [])
        (strategy_code x.strategy ∷ limit ∷ bits_of x.rate ∷ traffic_code x.traffic ∷ []) }
{
    put(s, at, policy::STRATEGY, 2, u64::from(x.strategy));
    put(s, at, policy::LIMIT, 16, limit as u64);
    put_double(s, at, policy::RATE, x.rate);
    put(s, at, policy::TRAFFIC, 2, u64::from(x.traffic));
}

pub fn put_weights(s: &mut [u8], at: u32, x: Policy)
    ensures { s.new ≡ fields_put s.old at
        (policy_w0_field ∷ policy_w1_field ∷ policy_w2_field ∷ policy_w3_field ∷ policy_w4_field ∷ policy_w5_field ∷ [])
        (bits_of x.w0 ∷ bits_of x.w1 ∷ bits_of x.w2 ∷ bits_of x.w3 ∷ bits_of x.w4 ∷ bits_of x.w5 ∷ []) }
{
    put_double(s, at, policy::W0, x.w0);
    put_double(s, at, policy::W1, x.w1);
    put_double(s, at, policy::W2, x.w2);
    put_double(s, at, policy::W3, x.w3);
    put_double(s, at, policy::W4, x.w4);
    put_double(s, at, policy::W5, x.w5);
}

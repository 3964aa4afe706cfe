// The records of a sheet, each decoded in place from the bit where it starts.
#![tactic(auto)]

ghost use Rattle.std.specs.Prelude.{◌≡◌, ◌≤◌};
ghost use Rattle.layout.specs.Table.{field};
ghost use Rattle.layout.specs.Records.{from, double, optional, point, policy_of, line_of, car_of};

use components::{Car, Direction, Line, Mode, Phase, Point, Policy, Strategy, Traffic};
use layout::{car, line, policy};

// The double in the 64 bits at an offset.
pub fn double_at(s: &[u8], at: u32, off: u32) -> f64
    ensures { result ≡ double (from s.now at) (field off 64) }
{
    fp::double(bits::field(s, at, off, 64))
}

// A position at one offset, and at another a second coordinate of some bits; of none it is 0.
pub fn point_at(s: &[u8], at: u32, along: u32, across: u32, bits: u32) -> Point
    requires { bits ≤ 64 }
    ensures { result ≡ point (from s.now at) (field along 64) (field across bits) }
{
    Point {
        along: double_at(s, at, along),
        across: fp::double(bits::field(s, at, across, bits as usize)),
    }
}

// An optional double: its present bit, and where the double stands.
fn threshold_at(s: &[u8], at: u32, present: u32, value: u32) -> Option<f64>
    ensures { result ≡ optional (from s.now at) (field present 1) (field value 64) }
{
    if bits::flag(s, at, present) {
        Some(double_at(s, at, value))
    } else {
        None
    }
}

pub fn policy_at(s: &[u8], at: u32) -> Policy
    ensures { result ≡ policy_of (from s.now at) }
{
    Policy {
        strategy: Strategy::of_code(bits::field(s, at, policy::STRATEGY, 2)),
        rate: double_at(s, at, policy::RATE),
        traffic: Traffic::of_code(bits::field(s, at, policy::TRAFFIC, 2)),
        w0: double_at(s, at, policy::W0),
        w1: double_at(s, at, policy::W1),
        w2: double_at(s, at, policy::W2),
        w3: double_at(s, at, policy::W3),
        w4: double_at(s, at, policy::W4),
        w5: double_at(s, at, policy::W5),
    }
}

pub fn line_at(s: &[u8], at: u32) -> Line
    ensures { result ≡ line_of (from s.now at) }
{
    Line {
        id: bits::field32(s, at, line::ID),
        serves: bits::field(s, at, line::SERVES, 64),
    }
}

// Where second coordinates have some bits, what follows one stands so much later.
pub fn car_at(s: &[u8], at: u32, across: u32) -> Car
    requires { across ≤ 64 }
    ensures { result ≡ car_of across (from s.now at) }
{
    Car {
        id: bits::field32(s, at, car::ID),
        line: bits::field32(s, at, car::LINE),
        phase: Phase::of_code(
            bits::field(s, at, car::PHASE, 3),
            bits::field32(s, at, car::STOP),
        ),
        target: bits::field32(s, at, car::TARGET),
        listed: bits::flag(s, at, car::LISTED),
        up: bits::flag(s, at, car::UP),
        down: bits::flag(s, at, car::DOWN),
        direction: Direction::from(bits::flag(s, at, car::SWEEP)),
        mode: Mode::from(bits::flag(s, at, car::MODE)),
        position: point_at(s, at, car::POSITION, car::ACROSS, across),
        speed: double_at(s, at, car::SPEED + across),
        capacity: double_at(s, at, car::CAPACITY + across),
        load: double_at(s, at, car::LOAD + across),
        bypassup: threshold_at(s, at, car::HAS_BYPASS_UP + across, car::BYPASS_UP + across),
        bypassdown: threshold_at(
            s,
            at,
            car::HAS_BYPASS_DOWN + across,
            car::BYPASS_DOWN + across,
        ),
        transition: bits::field32(s, at, car::TRANSITION + across),
        dwell: bits::field32(s, at, car::DWELL + across),
        restricted: bits::field(s, at, car::RESTRICTED + across, 64),
        calls: bits::field(s, at, car::CALLS + across, 64),
    }
}

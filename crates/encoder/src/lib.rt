// The records of a sheet, each put in place at the bit where it starts: what the crate records reads, the other way round. Where second coordinates
// have some bits, none or 64, a stop has one; the crate encoder_car has the car.
#![tactic(auto)]

pub mod parts;
mod place;
mod policy;

ghost use Rattle.std.specs.Prelude.{◌≡◌};
ghost use Rattle.encoder.specs.Encoded.{policy_at, stop_at, line_at, aboard_at, waiting_at, demand_at, closed_at};

use components::{Aboard, Demand, Kind, Line, Policy, Stop, Waiting};
use layout::{aboard, closed, demand, line, stop, waiting};
pub use place::Place;
use put::put;

// A policy, and the candidate limit.
pub fn put_policy(s: &mut [u8], place: Place, limit: u16, x: Policy)
    ensures { s.new ≡ policy_at s.old place.at place.across limit x }
{
    let at = place.at;
    parts::put_front(s, place, Kind::Policy);
    policy::put_terms(s, at, limit, x);
    policy::put_weights(s, at, x);
}

pub fn put_stop(s: &mut [u8], place: Place, x: Stop)
    ensures { s.new ≡ stop_at s.old place.at place.across x }
{
    let at = place.at;
    parts::put_front(s, place, Kind::Stop);
    put(s, at, stop::ID, 32, x.id as u64);
    parts::put_point(s, place, stop::POSITION, stop::ACROSS, x.position);
}

pub fn put_line(s: &mut [u8], place: Place, x: Line)
    ensures { s.new ≡ line_at s.old place.at place.across x }
{
    let at = place.at;
    parts::put_front(s, place, Kind::Line);
    put(s, at, line::ID, 32, x.id as u64);
    put(s, at, line::SERVES, 64, x.serves);
}

pub fn put_aboard(s: &mut [u8], place: Place, x: Aboard)
    ensures { s.new ≡ aboard_at s.old place.at place.across x }
{
    let at = place.at;
    parts::put_front(s, place, Kind::Aboard);
    put(s, at, aboard::CAR, 32, x.car as u64);
    parts::put_optional(
        s,
        at,
        aboard::HAS_DESTINATION,
        aboard::DESTINATION,
        x.destination,
    );
}

pub fn put_waiting(s: &mut [u8], place: Place, x: Waiting)
    ensures { s.new ≡ waiting_at s.old place.at place.across x }
{
    let at = place.at;
    parts::put_front(s, place, Kind::Waiting);
    put(s, at, waiting::STOP, 32, x.stop as u64);
    parts::put_optional(s, at, waiting::HAS_LINE, waiting::LINE, x.line);
    parts::put_optional(
        s,
        at,
        waiting::HAS_DESTINATION,
        waiting::DESTINATION,
        x.destination,
    );
    parts::put_double(s, at, waiting::WEIGHT, x.weight);
    put(s, at, waiting::WAIT, 64, x.wait);
}

pub fn put_demand(s: &mut [u8], place: Place, x: Demand)
    ensures { s.new ≡ demand_at s.old place.at place.across x }
{
    let at = place.at;
    parts::put_front(s, place, Kind::Demand);
    put(s, at, demand::STOP, 32, x.stop as u64);
    put(s, at, demand::RIDING, 16, x.riding as u64);
    put(s, at, demand::CALL, 1, u64::from(x.call));
}

// A closed landing: the stop's id.
pub fn put_closed(s: &mut [u8], place: Place, stop: u32)
    ensures { s.new ≡ closed_at s.old place.at place.across stop }
{
    let at = place.at;
    parts::put_front(s, place, Kind::Closed);
    put(s, at, closed::STOP, 32, stop as u64);
}

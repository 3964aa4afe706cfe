// The records that a writer puts.
ghost use Rattle.std.specs.Prelude.{◌≡◌, ℕ, List};
ghost use Rattle.components.specs.declared.Kind.{Kind as KindOf};
ghost use Rattle.components.specs.declared.Kind.TheVariants as kind;
ghost use Rattle.values.specs.Values.{policy_values, stop_values, line_values, car_values, aboard_values, waiting_values, demand_values, closed_values};
ghost use Rattle.encoder.specs.Encoded.{record_at, policy_at, stop_at, line_at, car_at, aboard_at, waiting_at, demand_at, closed_at};

use components::{Aboard, Car, Demand, Kind, Line, Policy, Stop, Waiting};
use encoder::Place;

// A record of one of the eight kinds, with the numbers of its body's fields.
pub trait Record: Copy {
    ghost KIND: { KindOf };

    ghost values: { Self → List ℕ };

    const KIND: Kind;

    // Puts it in its place.
    fn put_at(self, s: &mut [u8], place: Place)
        ensures { s.new ≡ record_at s.old place.at place.across KIND (values self) };
}

// A policy, with the candidate limit.
#[derive(Clone, Copy, Debug, PartialEq)]
pub struct Limited {
    pub limit: u16,
    pub policy: Policy,
}

// A closed landing: the stop's id.
#[derive(Clone, Copy, Debug, PartialEq, Eq)]
pub struct Closed {
    pub stop: u32,
}

impl Record for Limited {
    ghost KIND = { kind.Policy };

    ghost values = { λ x. policy_values x.limit x.policy };

    const KIND: Kind = Kind::Policy;

    fn put_at(self, s: &mut [u8], place: Place)
        ensures { s.new ≡ policy_at s.old place.at place.across self.limit self.policy }
    {
        encoder::put_policy(s, place, self.limit, self.policy);
    }
}

impl Record for Stop {
    ghost KIND = { kind.Stop };

    ghost values = { stop_values };

    const KIND: Kind = Kind::Stop;

    fn put_at(self, s: &mut [u8], place: Place)
        ensures { s.new ≡ stop_at s.old place.at place.across self }
    {
        encoder::put_stop(s, place, self);
    }
}

impl Record for Line {
    ghost KIND = { kind.Line };

    ghost values = { line_values };

    const KIND: Kind = Kind::Line;

    fn put_at(self, s: &mut [u8], place: Place)
        ensures { s.new ≡ line_at s.old place.at place.across self }
    {
        encoder::put_line(s, place, self);
    }
}

impl Record for Car {
    ghost KIND = { kind.Car };

    ghost values = { car_values };

    const KIND: Kind = Kind::Car;

    fn put_at(self, s: &mut [u8], place: Place)
        ensures { s.new ≡ car_at s.old place.at place.across self }
    {
        encoder_car::put_car(s, place, self);
    }
}

impl Record for Aboard {
    ghost KIND = { kind.Aboard };

    ghost values = { aboard_values };

    const KIND: Kind = Kind::Aboard;

    fn put_at(self, s: &mut [u8], place: Place)
        ensures { s.new ≡ aboard_at s.old place.at place.across self }
    {
        encoder::put_aboard(s, place, self);
    }
}

impl Record for Waiting {
    ghost KIND = { kind.Waiting };

    ghost values = { waiting_values };

    const KIND: Kind = Kind::Waiting;

    fn put_at(self, s: &mut [u8], place: Place)
        ensures { s.new ≡ waiting_at s.old place.at place.across self }
    {
        encoder::put_waiting(s, place, self);
    }
}

impl Record for Demand {
    ghost KIND = { kind.Demand };

    ghost values = { demand_values };

    const KIND: Kind = Kind::Demand;

    fn put_at(self, s: &mut [u8], place: Place)
        ensures { s.new ≡ demand_at s.old place.at place.across self }
    {
        encoder::put_demand(s, place, self);
    }
}

impl Record for Closed {
    ghost KIND = { kind.Closed };

    ghost values = { λ x. closed_values x.stop };

    const KIND: Kind = Kind::Closed;

    fn put_at(self, s: &mut [u8], place: Place)
        ensures { s.new ≡ closed_at s.old place.at place.across self.stop }
    {
        encoder::put_closed(s, place, self.stop);
    }
}

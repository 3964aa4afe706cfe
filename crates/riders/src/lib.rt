// The riders of a car: world.rs's riders of an elevator, and the destinations of their routes.
#![tactic(auto)]

ghost use Rattle.std.specs.Prelude.{◌≡◌, ◌≤◌, ◌<◌, length, get_or};
ghost use Rattle.std.specs.Float.{nan};
ghost use Rattle.components.specs.Points.{point_of};
ghost use Rattle.manifest.specs.Stops.{AtHand};
ghost use Rattle.riders.specs.Riders.{Seated, Seats};

use components::Point;
use manifest::Stops;

// The riders aboard the cars: the id of the car and the destination of each, and how many they are.
#[derive(Clone, Copy)]
pub struct Aboard<'a> {
    pub cars: &'a [u32],
    pub destinations: &'a [u32],
    pub count: usize,
}

// The known points that the riders of a car are bound for, by their two coordinates.
#[derive(Clone, Copy)]
pub struct Destinations<'a> {
    pub along: &'a [f64],
    pub across: &'a [f64],
}

impl<'a> Destinations<'a> {
    // The point of the known destination k.
    pub fn point(&self, k: usize) -> Point
        requires { (k < length self.now.along.now) × (k < length self.now.across.now) }
        ensures { result ≡ point_of (get_or self.now.along.now k nan) (get_or self.now.across.now k nan) }
    {
        Point {
            along: self.along[k],
            across: self.across[k],
        }
    }
}

// The riders of a car: how many destinations have a position, the stops they are bound for, and whether any has a route. It depends on no stop.
#[derive(Clone, Copy)]
pub struct Riders {
    pub count: usize,
    pub exits: u64,
    pub routed: bool,
}

// One rider more of the car, bound for dest: its point is stored where the destination has one.
fn seat(riders: Riders, stops: &Stops, dest: u32, dests: &mut [f64], sides: &mut [f64]) -> Riders
    requires { AtHand stops.now.ids.now stops.now.points.now stops.now.count × (stops.now.count ≤ 64)
        × (riders.count < length dests.old) × (riders.count < length sides.old) }
    ensures { Seated stops.now.ids.now stops.now.points.now stops.now.count riders dest dests.old sides.old result
        dests.new sides.new }
{
    let at = riders.count;
    let routed = riders.routed | (dest != 0);
    let index = stops.index(dest);
    if index < stops.count {
        let p = stops.point(index);
        dests[at] = p.along;
        sides[at] = p.across;
        Riders {
            count: at + 1,
            exits: mask::with(riders.exits, index),
            routed,
        }
    } else {
        Riders { routed, ..riders }
    }
}

// The riders of the car with this id; dests and sides hold the known points they are bound for: two lists, since the path is asked of first
// coordinates alone, and `Seats` speaks of two.
pub fn riders_of(
    stops: &Stops,
    aboard: &Aboard,
    id: u32,
    dests: &mut [f64],
    sides: &mut [f64],
) -> Riders
    requires stops { AtHand stops.now.ids.now stops.now.points.now stops.now.count × (stops.now.count ≤ 64) }
    requires aboard { (aboard.now.count ≤ length aboard.now.cars.now) × (aboard.now.count ≤ length aboard.now.destinations.now) }
    requires buffers { (aboard.now.count ≤ length dests.old) × (aboard.now.count ≤ length sides.old) }
    ensures { Seats stops.now.ids.now stops.now.points.now stops.now.count aboard.now.cars.now aboard.now.destinations.now
        aboard.now.count id dests.old sides.old result dests.new sides.new }
{
    let mut riders = Riders {
        count: 0,
        exits: 0,
        routed: false,
    };
    for a in 0..aboard.count {
        if aboard.cars[a] == id {
            riders = seat(riders, stops, aboard.destinations[a], dests, sides);
        }
    }
    riders
}

// A car's sweep: sweep.rs. A struct by value; each method hands the next state back.
#![tactic(auto)]

ghost use Rattle.std.specs.Prelude.{◌≡◌};
ghost use Rattle.components.specs.declared.Mode.TheVariants.{Lenient};
ghost use Rattle.sweep.specs.Sweeps.{sweep_of, turned_round, strictly_ahead, prepared, accepts, sweep_rank, sweep_code};

use components::{Car, Direction, Mode, Point};

#[derive(Clone, Copy)]
pub struct Sweep {
    pub direction: Direction,
    pub mode: Mode,
}

// Whether p lies ahead of a car at x by more than 1e-9.
pub fn strictly_ahead(direction: Direction, x: f64, p: f64) -> bool
    ensures { result ≡ strictly_ahead direction x p }
{
    match direction {
        Direction::Up => p > x + 1e-9,
        Direction::Down => p < x - 1e-9,
    }
}

// Whether p lies behind a car at x by less than 1e-9, or ahead.
fn leniently_ahead(direction: Direction, x: f64, p: f64) -> bool
    ensures { result ≡ accepts Lenient direction x p }
{
    match direction {
        Direction::Up => p > x - 1e-9,
        Direction::Down => p < x + 1e-9,
    }
}

// The half of the shaft that a sweep takes stops from.
fn accepts(mode: Mode, direction: Direction, x: f64, p: f64) -> bool
    ensures { result ≡ accepts mode direction x p }
{
    match mode {
        Mode::Strict => strictly_ahead(direction, x, p),
        Mode::Lenient => leniently_ahead(direction, x, p),
    }
}

impl Sweep {
    // The sweep that the sheet gives a car.
    pub fn of(car: Car) -> Self
        ensures { result ≡ sweep_of car }
    {
        Sweep {
            direction: car.direction,
            mode: car.mode,
        }
    }

    // The same mode, the other way: SweepDirection::reversed.
    fn reversed(self) -> Self
        ensures { result ≡ turned_round self }
    {
        let direction = match self.direction {
            Direction::Up => Direction::Down,
            Direction::Down => Direction::Up,
        };
        Sweep { direction, ..self }
    }

    // prepare_car: on, strict, where demand lies strictly ahead; else back, lenient.
    #[tactic(auto, unfolding(crate::specs::Sweeps::prepared))]
    pub fn prepare(self, ahead: bool) -> Self
        ensures { result ≡ prepared self ahead }
    {
        if ahead {
            Sweep {
                mode: Mode::Strict,
                ..self
            }
        } else {
            Sweep {
                mode: Mode::Lenient,
                ..self.reversed()
            }
        }
    }

    // The cost of a stop at p for a car at x: the distance, where the sweep takes it.
    pub fn rank(self, x: Point, p: Point) -> Option<f64>
        ensures { result ≡ sweep_rank self x p }
    {
        if accepts(self.mode, self.direction, x.along, p.along) {
            Some(x.distance(p))
        } else {
            None
        }
    }

    // 2 × sweep + mode, as the sheet codes them.
    #[tactic(auto, unfolding(crate::specs::Sweeps::sweep_code))]
    pub fn code(self) -> u8
        ensures { result ≡ sweep_code self }
    {
        match (self.direction, self.mode) {
            (Direction::Up, Mode::Strict) => 0,
            (Direction::Up, Mode::Lenient) => 1,
            (Direction::Down, Mode::Strict) => 2,
            (Direction::Down, Mode::Lenient) => 3,
        }
    }
}

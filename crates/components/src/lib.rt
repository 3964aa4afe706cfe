// The records of a sheet, by value: of elevator.rs, rider.rs, route.rs, stop.rs and line.rs the fields that the sheet holds. A code becomes
// an enum by a match whose last range takes the codes that stand for nothing. An id of 0 is none: no accepted sheet has a record with id 0.
#![tactic(auto)]

ghost use Rattle.std.specs.Prelude.{◌≡◌};
ghost use Rattle.components.specs.Codes.{HasCode, kind_of, kind_code, strategy_of, strategy_code, traffic_of, traffic_code, phase_of, phase_code};
ghost use Rattle.components.specs.Codes.{direction_of, direction_code, mode_of, mode_code};
ghost use Rattle.laws.specs.Bools.{bit};
ghost use Rattle.components.specs.Cars.{is_moving, is_idle, servicing, remaining};
ghost use Rattle.components.specs.Points.{distance};

// The kinds of records.
#[derive(Clone, Copy, Debug, PartialEq, Eq)]
pub enum Kind {
    Policy,
    Stop,
    Line,
    Car,
    Aboard,
    Waiting,
    Demand,
    Closed,
    Unknown,
}

#[derive(Clone, Copy, Debug, PartialEq, Eq)]
pub enum Strategy {
    Etd,
    Rsr,
    Scan,
    Unknown,
}

// TrafficMode of traffic_detector.rs.
#[derive(Clone, Copy, Debug, PartialEq, Eq)]
pub enum Traffic {
    Idle,
    UpPeak,
    InterFloor,
    DownPeak,
}

// ElevatorPhase; the moving phases hold the stop's id.
#[derive(Clone, Copy, Debug, PartialEq, Eq)]
pub enum Phase {
    Idle,
    MovingToStop(u32),
    Repositioning(u32),
    DoorOpening,
    Loading,
    DoorClosing,
    Stopped,
    Unknown,
}

// SweepDirection and SweepMode of sweep.rs.
#[derive(Clone, Copy, Debug, PartialEq, Eq)]
pub enum Direction {
    Up,
    Down,
}

#[derive(Clone, Copy, Debug, PartialEq, Eq)]
pub enum Mode {
    Strict,
    Lenient,
}

// Where a stop or a car stands: its position in the shaft, and of a shuttle that also runs sideways how far across it is.
#[derive(Clone, Copy, Debug, PartialEq)]
pub struct Point {
    pub along: f64,
    pub across: f64,
}

// The six weights by their slots. ETD: wait, delay, door, wait squared, age. RSR: eta, wrong direction, coincident call, load, age, peak multiplier.
// Six fields, and no array: the definitions of costs and records speak of w0 to w5 (etd: Etd, layout: Records).
#[derive(Clone, Copy, Debug, PartialEq)]
pub struct Policy {
    pub strategy: Strategy,
    pub rate: f64,
    pub traffic: Traffic,
    pub w0: f64,
    pub w1: f64,
    pub w2: f64,
    pub w3: f64,
    pub w4: f64,
    pub w5: f64,
}

#[derive(Clone, Copy, Debug, PartialEq)]
pub struct Stop {
    pub id: u32,
    pub position: Point,
}

#[derive(Clone, Copy, Debug, PartialEq, Eq)]
pub struct Line {
    pub id: u32,
    pub serves: u64,
}

// Elevator. The Rust's names, where they differ: target target_stop, up going_up, down going_down, speed max_speed, capacity weight_capacity,
// load current_load, bypassup and bypassdown bypass_load_up_pct and bypass_load_down_pct, transition door_transition_ticks, dwell
// door_open_ticks, restricted restricted_stops. calls are the stops of its car calls; listed says that the car is among the idle ones.
#[derive(Clone, Copy, Debug, PartialEq)]
pub struct Car {
    pub id: u32,
    pub line: u32,
    pub phase: Phase,
    pub target: u32,
    pub listed: bool,
    pub up: bool,
    pub down: bool,
    pub direction: Direction,
    pub mode: Mode,
    pub position: Point,
    pub speed: f64,
    pub capacity: f64,
    pub load: f64,
    pub bypassup: Option<f64>,
    pub bypassdown: Option<f64>,
    pub transition: u32,
    pub dwell: u32,
    pub restricted: u64,
    pub calls: u64,
}

// A rider in a car, with the destination of its route.
#[derive(Clone, Copy, Debug, PartialEq, Eq)]
pub struct Aboard {
    pub car: u32,
    pub destination: u32,
}

// A rider at a stop: line is the one its route requires, wait its wait_ticks.
#[derive(Clone, Copy, Debug, PartialEq)]
pub struct Waiting {
    pub stop: u32,
    pub line: u32,
    pub destination: u32,
    pub weight: f64,
    pub wait: u64,
}

// What the manifest says of a stop beside its waiting riders: riding_to_stop, and whether a hall call there has no pending rider.
#[derive(Clone, Copy, Debug, PartialEq, Eq)]
pub struct Demand {
    pub stop: u32,
    pub riding: u16,
    pub call: bool,
}

// The name `of_code` stays beside `from`, since docs/manual/reviewers.md names it; a phase takes its stop's id too, so it has no `from`.
impl From<u64> for Kind {
    ghost from_gives = { λ code x. HasCode kind_of kind_code 8 code x };

    fn from(code: u64) -> Self {
        match code {
            0 => Kind::Unknown,
            1 => Kind::Policy,
            2 => Kind::Stop,
            3 => Kind::Line,
            4 => Kind::Car,
            5 => Kind::Aboard,
            6 => Kind::Waiting,
            7 => Kind::Demand,
            8 => Kind::Closed,
            9..=0xffff_ffff_ffff_ffff => Kind::Unknown,
        }
    }
}

impl Kind {
    pub fn of_code(code: u64) -> Self
        ensures { HasCode kind_of kind_code 8 code result }
    {
        Kind::from(code)
    }
}

impl From<u64> for Strategy {
    ghost from_gives = { λ code x. HasCode strategy_of strategy_code 3 code x };

    fn from(code: u64) -> Self {
        match code {
            0 => Strategy::Etd,
            1 => Strategy::Rsr,
            2 => Strategy::Scan,
            3..=0xffff_ffff_ffff_ffff => Strategy::Unknown,
        }
    }
}

impl Strategy {
    pub fn of_code(code: u64) -> Self
        ensures { HasCode strategy_of strategy_code 3 code result }
    {
        Strategy::from(code)
    }
}

impl From<u64> for Traffic {
    ghost from_gives = { λ code x. HasCode traffic_of traffic_code 3 code x };

    fn from(code: u64) -> Self {
        match code {
            0 => Traffic::Idle,
            1 => Traffic::UpPeak,
            2 => Traffic::InterFloor,
            3..=0xffff_ffff_ffff_ffff => Traffic::DownPeak,
        }
    }
}

impl Traffic {
    pub fn of_code(code: u64) -> Self
        ensures { HasCode traffic_of traffic_code 3 code result }
    {
        Traffic::from(code)
    }
}

impl Phase {
    // The phase of a code, with the id of the stop that a moving phase holds.
    pub fn of_code(code: u64, stop: u32) -> Self
        ensures { HasCode (λ n. phase_of n stop) phase_code 7 code result }
    {
        match code {
            0 => Phase::Idle,
            1 => Phase::MovingToStop(stop),
            2 => Phase::Repositioning(stop),
            3 => Phase::DoorOpening,
            4 => Phase::Loading,
            5 => Phase::DoorClosing,
            6 => Phase::Stopped,
            7..=0xffff_ffff_ffff_ffff => Phase::Unknown,
        }
    }

    pub fn is_moving(self) -> bool
        ensures { result ≡ is_moving self }
    {
        matches!(self, Phase::MovingToStop(_) | Phase::Repositioning(_))
    }

    pub fn is_idle(self) -> bool
        ensures { result ≡ is_idle self }
    {
        matches!(self, Phase::Idle)
    }

    // Whether a car in this phase opens its doors at its target: assignment.rs's servicing cars.
    pub fn servicing(self) -> bool
        ensures { result ≡ servicing self }
    {
        matches!(
            self,
            Phase::MovingToStop(_) | Phase::DoorOpening | Phase::Loading | Phase::DoorClosing
        )
    }
}

impl From<bool> for Direction {
    ghost from_gives = { λ down x. (x ≡ direction_of down) × (direction_code x ≡ bit down) };

    fn from(down: bool) -> Self {
        if down { Direction::Down } else { Direction::Up }
    }
}

impl From<bool> for Mode {
    ghost from_gives = { λ lenient x. (x ≡ mode_of lenient) × (mode_code x ≡ bit lenient) };

    fn from(lenient: bool) -> Self {
        if lenient { Mode::Lenient } else { Mode::Strict }
    }
}

// Document 01's number of each case. 0 is no kind's.
impl From<Kind> for u64 {
    ghost from_gives = { λ x n. n ≡ kind_code x };

    fn from(kind: Kind) -> u64 {
        match kind {
            Kind::Policy => 1,
            Kind::Stop => 2,
            Kind::Line => 3,
            Kind::Car => 4,
            Kind::Aboard => 5,
            Kind::Waiting => 6,
            Kind::Demand => 7,
            Kind::Closed => 8,
            Kind::Unknown => 0,
        }
    }
}

impl From<Strategy> for u64 {
    ghost from_gives = { λ x n. n ≡ strategy_code x };

    fn from(strategy: Strategy) -> u64 {
        match strategy {
            Strategy::Etd => 0,
            Strategy::Rsr => 1,
            Strategy::Scan => 2,
            Strategy::Unknown => 3,
        }
    }
}

impl From<Traffic> for u64 {
    ghost from_gives = { λ x n. n ≡ traffic_code x };

    fn from(traffic: Traffic) -> u64 {
        match traffic {
            Traffic::Idle => 0,
            Traffic::UpPeak => 1,
            Traffic::InterFloor => 2,
            Traffic::DownPeak => 3,
        }
    }
}

impl From<Phase> for u64 {
    ghost from_gives = { λ x n. n ≡ phase_code x };

    fn from(phase: Phase) -> u64 {
        match phase {
            Phase::Idle => 0,
            Phase::MovingToStop(_) => 1,
            Phase::Repositioning(_) => 2,
            Phase::DoorOpening => 3,
            Phase::Loading => 4,
            Phase::DoorClosing => 5,
            Phase::Stopped => 6,
            Phase::Unknown => 7,
        }
    }
}

impl From<Direction> for u64 {
    ghost from_gives = { λ x n. n ≡ direction_code x };

    fn from(direction: Direction) -> u64 {
        match direction {
            Direction::Up => 0,
            Direction::Down => 1,
        }
    }
}

impl From<Mode> for u64 {
    ghost from_gives = { λ x n. n ≡ mode_code x };

    fn from(mode: Mode) -> u64 {
        match mode {
            Mode::Strict => 0,
            Mode::Lenient => 1,
        }
    }
}

impl Point {
    // How far two points are from each other: along the shaft, and across.
    pub fn distance(self, other: Point) -> f64
        ensures { result ≡ distance self other }
    {
        fp::apart(self.along, other.along) + fp::apart(self.across, other.across)
    }
}

impl Car {
    // The weight that the car still takes.
    pub fn remaining_capacity(self) -> f64
        ensures { result ≡ remaining self }
    {
        self.capacity - self.load
    }
}

// The sheet's format: how many records of each kind there are, and what reading finds. The definitions of document 01's records and refusals are
// in specs/.
#![tactic(auto)]

ghost use Rattle.std.specs.Prelude.{◌≡◌, ◌<◌, ◌+◌};
ghost use Rattle.components.specs.declared.Kind.TheVariants.{Stop, Car};
ghost use Rattle.layout.specs.Offsets.{Small, body_length, across_in, across_bits, record_length, none, next, stops_from, lines_from, cars_from, aboards_from, waits_from, demands_from, closures_from, end_of};
ghost use Rattle.layout.specs.Offsets.{stop_start, car_start, last_kind};
ghost use Rattle.layout.specs.Refusals.{refusal6, refusal7};

use components::Kind;

// Document 01's table of records: the head, what stands before every body, and a module for each kind.
pub mod aboard;
pub mod car;
pub mod closed;
pub mod demand;
pub mod head;
pub mod line;
pub mod policy;
pub mod record;
pub mod stop;
pub mod waiting;

// How many records of each kind, and how long they are: the bits of a stop's and of a car's second coordinate, 64 in edition 2, else none.
#[derive(Clone, Copy)]
pub struct Counts {
    pub across: u32,
    pub policies: u32,
    pub stops: u32,
    pub lines: u32,
    pub cars: u32,
    pub aboards: u32,
    pub waits: u32,
    pub demands: u32,
    pub closures: u32,
}

// Why a sheet, or what is asked of one, is refused: the paper's number, and the bit offset where the record starts. It is a number, since the C
// interface gives it and the theorems compare refusals by it (layout: Earliest, refused_first; Verdict, the tables of rules).
#[derive(Clone, Copy, Debug, PartialEq, Eq)]
pub struct Refusal {
    pub number: u32,
    pub offset: u64,
}

// 1, the host program's: a lent buffer is too short.
pub const SHORT_BUFFER: Refusal = Refusal {
    number: 1,
    offset: 0,
};

// The bits of a second coordinate in a sheet of this edition.
pub fn across_bits(edition: u64) -> u32
    ensures { result ≡ across_bits edition }
{
    if edition == 2 { 64 } else { 0 }
}

// The length of a kind's body in bits, where a second coordinate has some.
pub fn body_length(kind: Kind, across: u32) -> u64
    ensures { result ≡ body_length kind + across_in across kind }
{
    match kind {
        Kind::Policy => (policy::BITS - record::BODY) as u64,
        Kind::Stop => (stop::BITS - record::BODY) as u64 + across as u64,
        Kind::Line => (line::BITS - record::BODY) as u64,
        Kind::Car => (car::BITS - record::BODY) as u64 + across as u64,
        Kind::Aboard => (aboard::BITS - record::BODY) as u64,
        Kind::Waiting => (waiting::BITS - record::BODY) as u64,
        Kind::Demand => (demand::BITS - record::BODY) as u64,
        Kind::Closed => (closed::BITS - record::BODY) as u64,
        Kind::Unknown => 0,
    }
}

impl Counts {
    // Before the first record, where second coordinates have some bits.
    pub fn none(across: u32) -> Counts
        ensures { result ≡ none across }
    {
        Counts {
            across,
            policies: 0,
            stops: 0,
            lines: 0,
            cars: 0,
            aboards: 0,
            waits: 0,
            demands: 0,
            closures: 0,
        }
    }

    // A stop's length.
    pub fn stop_bits(self) -> u32
        requires { Small self }
        ensures { result ≡ record_length self.across Stop }
    {
        stop::BITS + self.across
    }

    // A car's length.
    pub fn car_bits(self) -> u32
        requires { Small self }
        ensures { result ≡ record_length self.across Car }
    {
        car::BITS + self.across
    }

    // Where the stops start.
    pub fn stops_from(self) -> u32
        requires { Small self }
        ensures { result ≡ stops_from self }
    {
        head::BITS + policy::BITS * self.policies
    }

    // Where stop i starts.
    pub fn stop_start(self, i: u32) -> u32
        requires { Small self × (i < self.stops) }
        ensures { result ≡ stop_start self i }
    {
        self.stops_from() + (stop::BITS + self.across) * i
    }

    pub fn lines_from(self) -> u32
        requires { Small self }
        ensures { result ≡ lines_from self }
    {
        self.stops_from() + (stop::BITS + self.across) * self.stops
    }

    pub fn cars_from(self) -> u32
        requires { Small self }
        ensures { result ≡ cars_from self }
    {
        self.lines_from() + line::BITS * self.lines
    }

    // Where car i starts.
    pub fn car_start(self, i: u32) -> u32
        requires { Small self × (i < self.cars) }
        ensures { result ≡ car_start self i }
    {
        self.cars_from() + (car::BITS + self.across) * i
    }

    pub fn aboards_from(self) -> u32
        requires { Small self }
        ensures { result ≡ aboards_from self }
    {
        self.cars_from() + (car::BITS + self.across) * self.cars
    }

    pub fn waits_from(self) -> u32
        requires { Small self }
        ensures { result ≡ waits_from self }
    {
        self.aboards_from() + aboard::BITS * self.aboards
    }

    pub fn demands_from(self) -> u32
        requires { Small self }
        ensures { result ≡ demands_from self }
    {
        self.waits_from() + waiting::BITS * self.waits
    }

    pub fn closures_from(self) -> u32
        requires { Small self }
        ensures { result ≡ closures_from self }
    {
        self.demands_from() + demand::BITS * self.demands
    }

    // Where the next record starts.
    pub fn end_of(self) -> u32
        requires { Small self }
        ensures { result ≡ end_of self }
    {
        self.closures_from() + closed::BITS * self.closures
    }

    // The code of the last record's kind, 0 before the first.
    fn last_kind(self) -> u64
        ensures { result ≡ last_kind self }
    {
        if 0 < self.closures {
            return 8;
        }
        if 0 < self.demands {
            return 7;
        }
        if 0 < self.waits {
            return 6;
        }
        if 0 < self.aboards {
            return 5;
        }
        if 0 < self.cars {
            return 4;
        }
        if 0 < self.lines {
            return 3;
        }
        if 0 < self.stops {
            return 2;
        }
        if 0 < self.policies { 1 } else { 0 }
    }

    // 6: kinds out of order, or no kind 1 first.
    pub fn out_of_order(self, kind: u64) -> bool
        ensures { result ≡ refusal6 self kind }
    {
        (kind < self.last_kind()) | ((self.policies == 0) & (kind != 1))
    }

    // 7: the kind has all the records that it may have.
    pub fn is_full(self, kind: Kind) -> bool
        ensures { result ≡ refusal7 self kind }
    {
        match kind {
            Kind::Policy => 1 <= self.policies,
            Kind::Stop => 64 <= self.stops,
            Kind::Line => 8 <= self.lines,
            Kind::Car => 32 <= self.cars,
            Kind::Aboard => 512 <= self.aboards,
            Kind::Waiting => 512 <= self.waits,
            Kind::Demand => false,
            Kind::Closed => false,
            Kind::Unknown => false,
        }
    }

    // One record more.
    pub fn next(self, kind: Kind) -> Counts
        requires { Small self × (self.demands < 65535) × (self.closures < 65535) }
        ensures { result ≡ next self kind }
    {
        let mut c = self;
        match kind {
            Kind::Policy => c.policies += 1,
            Kind::Stop => c.stops += 1,
            Kind::Line => c.lines += 1,
            Kind::Car => c.cars += 1,
            Kind::Aboard => c.aboards += 1,
            Kind::Waiting => c.waits += 1,
            Kind::Demand => c.demands += 1,
            Kind::Closed => c.closures += 1,
            Kind::Unknown => {}
        }
        c
    }
}

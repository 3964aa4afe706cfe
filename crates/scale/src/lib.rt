// assignment.rs's scale_cost: a cost as a cell of the matrix.
#![tactic(auto)]

ghost use Rattle.std.specs.Prelude.{◌≡◌, min, false, ltb};
ghost use Rattle.laws.specs.Bools.{bit};
ghost use Rattle.scale.specs.Scale.{sentinel, ceiling, whole, scale_cost, above_ceiling, held_down};

pub const SENTINEL: u64 = 281_474_976_710_656;

const CEILING: u64 = 281_474_976_710_655;

// A cost as a cell, and whether the ceiling held its value down: the two are always both there.
#[derive(Clone, Copy)]
pub struct Scaled {
    pub cell: u64,
    pub held: bool,
}

impl Scaled {
    // How many held cells it is: 1 or 0.
    pub fn held_count(self) -> u64
        ensures { result ≡ bit self.held }
    {
        u64::from(self.held)
    }
}

// A whole number, held to the ceiling.
fn at_most_ceiling(n: u64) -> Scaled
    ensures { (result.cell ≡ min n ceiling) × (result.held ≡ ltb ceiling n) }
{
    Scaled {
        cell: n.min(CEILING),
        held: CEILING < n,
    }
}

// The nearest whole number, a half going away from zero, held to 0 and the ceiling. A double with its sign clear and its field above 0 is
// digits * 2^(field - 1075): below 1/2 where the field is under 1022, and above the ceiling from 1071 on.
fn whole(y: f64) -> Scaled
    ensures { (result.cell ≡ whole y) × (result.held ≡ above_ceiling y) }
{
    if y.is_nan() {
        return at_most_ceiling(0);
    }
    let bits = y.to_bits();
    let field = bits >> 52;
    if bits >= 0x8000_0000_0000_0000 || field < 1022 {
        at_most_ceiling(0)
    } else if field < 1071 {
        let digits = bits % 0x10_0000_0000_0000 + 0x10_0000_0000_0000;
        let shift = 1075 - field;
        let half = 1 << (shift - 1);
        at_most_ceiling((digits + half) >> shift)
    } else {
        at_most_ceiling(SENTINEL)
    }
}

// The cell of a pair without a rank; a function, since what callers know of it is its promise.
pub fn no_rank() -> Scaled
    ensures { (result.cell ≡ sentinel) × (result.held ≡ false) }
{
    Scaled {
        cell: SENTINEL,
        held: false,
    }
}

pub fn scale_cost(cost: f64) -> Scaled
    ensures { (result.cell ≡ scale_cost cost) × (result.held ≡ held_down cost) }
{
    if !fp::finite(cost) || cost < 0.0 {
        no_rank()
    } else {
        whole(cost * 1_000_000.0)
    }
}

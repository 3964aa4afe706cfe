// Where a record is put.
ghost use Rattle.std.specs.Prelude.{◌≤◌};

// The bit where it starts, and the bits of a second coordinate there.
#[derive(Clone, Copy, Debug, PartialEq, Eq)]
pub struct Place {
    pub at: u32,
    pub across: u32,
    pub ghost narrow: { across ≤ 64 },
}

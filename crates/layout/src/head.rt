// The head of a sheet: the bit where each field starts.
pub const EDITION: u32 = 0;

pub const COUNT: u32 = EDITION + 8;

// The head's length: where the first record starts.
pub const BITS: u32 = COUNT + 16;

// Kind 5, aboard: the bit where each field starts, counted from the record's first.
pub const CAR: u32 = crate::record::BODY;

pub const HAS_DESTINATION: u32 = CAR + 32;

pub const DESTINATION: u32 = HAS_DESTINATION + 1;

// The record's length.
pub const BITS: u32 = DESTINATION + 32;

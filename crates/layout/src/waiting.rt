// Kind 6, waiting: the bit where each field starts, counted from the record's first.
pub const STOP: u32 = crate::record::BODY;

pub const HAS_LINE: u32 = STOP + 32;

pub const LINE: u32 = HAS_LINE + 1;

pub const HAS_DESTINATION: u32 = LINE + 32;

pub const DESTINATION: u32 = HAS_DESTINATION + 1;

pub const WEIGHT: u32 = DESTINATION + 32;

pub const WAIT: u32 = WEIGHT + 64;

// The record's length.
pub const BITS: u32 = WAIT + 64;

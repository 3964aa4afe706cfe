// Kind 7, demand: the bit where each field starts, counted from the record's first.
pub const STOP: u32 = crate::record::BODY;

pub const RIDING: u32 = STOP + 32;

pub const CALL: u32 = RIDING + 16;

// The record's length.
pub const BITS: u32 = CALL + 1;

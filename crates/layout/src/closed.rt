// Kind 8, closed: the bit where each field starts, counted from the record's first.
pub const STOP: u32 = crate::record::BODY;

// The record's length.
pub const BITS: u32 = STOP + 32;

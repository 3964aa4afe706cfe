// Kind 3, line: the bit where each field starts, counted from the record's first.
pub const ID: u32 = crate::record::BODY;

pub const SERVES: u32 = ID + 32;

// The record's length.
pub const BITS: u32 = SERVES + 64;

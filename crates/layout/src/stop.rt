// Kind 2, stop: the bit where each field starts, counted from the record's first.
pub const ID: u32 = crate::record::BODY;

pub const POSITION: u32 = ID + 32;

// In edition 2 the second coordinate, after all else.
pub const ACROSS: u32 = POSITION + 64;

// The record's length in edition 1.
pub const BITS: u32 = ACROSS;

// Kind 1, policy: the bit where each field starts, counted from the record's first.
pub const STRATEGY: u32 = crate::record::BODY;

pub const LIMIT: u32 = STRATEGY + 2;

pub const RATE: u32 = LIMIT + 16;

pub const TRAFFIC: u32 = RATE + 64;

pub const W0: u32 = TRAFFIC + 2;

pub const W1: u32 = W0 + 64;

pub const W2: u32 = W1 + 64;

pub const W3: u32 = W2 + 64;

pub const W4: u32 = W3 + 64;

pub const W5: u32 = W4 + 64;

// The record's length.
pub const BITS: u32 = W5 + 64;

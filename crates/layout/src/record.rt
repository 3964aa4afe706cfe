// What stands before the body of every record: the bit where each field starts, counted from the record's first.
pub const KIND: u32 = 0;

// The stated length of the body, in bits.
pub const STATED: u32 = KIND + 6;

// Where the body starts.
pub const BODY: u32 = STATED + 16;

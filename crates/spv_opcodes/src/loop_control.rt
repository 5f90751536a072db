// Bits of a loop's control mask.

pub const UNROLL: u32 = 1;

pub const DONT_UNROLL: u32 = 2;

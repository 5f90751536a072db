// Bits of a selection's control mask.

pub const FLATTEN: u32 = 1;

pub const DONT_FLATTEN: u32 = 2;

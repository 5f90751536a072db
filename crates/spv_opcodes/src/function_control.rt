// Bits of a function's control mask.

pub const INLINE: u32 = 1;

pub const DONT_INLINE: u32 = 2;

pub const PURE: u32 = 4;

pub const CONST: u32 = 8;

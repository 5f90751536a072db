// Bits of the memory operands.

pub const VOLATILE: u32 = 1;

pub const ALIGNED: u32 = 2;

pub const NONTEMPORAL: u32 = 4;

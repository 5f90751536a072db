// Addressing models.

pub const LOGICAL: u32 = 0;

// Execution modes.

pub const LOCAL_SIZE: u32 = 17;

pub const LOCAL_SIZE_ID: u32 = 38;

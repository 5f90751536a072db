// Capabilities.

pub const SHADER: u32 = 1;

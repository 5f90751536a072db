// Memory models.

pub const GLSL450: u32 = 1;

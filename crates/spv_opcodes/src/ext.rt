// The instructions of the extended set `GLSL.std.450`.

pub const S_ABS: u32 = 5;

pub const S_SIGN: u32 = 7;

pub const U_MIN: u32 = 38;

pub const S_MIN: u32 = 39;

pub const U_MAX: u32 = 41;

pub const S_MAX: u32 = 42;

pub const U_CLAMP: u32 = 44;

pub const S_CLAMP: u32 = 45;

pub const FIND_I_LSB: u32 = 73;

pub const FIND_S_MSB: u32 = 74;

pub const FIND_U_MSB: u32 = 75;

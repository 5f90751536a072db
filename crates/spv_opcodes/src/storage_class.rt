// Storage classes.

pub const INPUT: u32 = 1;

pub const UNIFORM: u32 = 2;

pub const WORKGROUP: u32 = 4;

pub const PRIVATE: u32 = 6;

pub const FUNCTION: u32 = 7;

pub const PUSH_CONSTANT: u32 = 9;

pub const STORAGE_BUFFER: u32 = 12;

// Scopes.

pub const DEVICE: u32 = 1;

pub const WORKGROUP: u32 = 2;

pub const INVOCATION: u32 = 4;

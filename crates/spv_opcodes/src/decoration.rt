// Decorations.

pub const SPEC_ID: u32 = 1;

pub const BLOCK: u32 = 2;

pub const ARRAY_STRIDE: u32 = 6;

pub const BUILTIN: u32 = 11;

pub const RESTRICT: u32 = 19;

pub const ALIASED: u32 = 20;

pub const VOLATILE: u32 = 21;

pub const COHERENT: u32 = 23;

pub const NON_WRITABLE: u32 = 24;

pub const NON_READABLE: u32 = 25;

pub const BINDING: u32 = 33;

pub const DESCRIPTOR_SET: u32 = 34;

pub const OFFSET: u32 = 35;

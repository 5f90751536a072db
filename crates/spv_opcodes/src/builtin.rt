// Built-ins: what a variable or a constant decorated `BuiltIn` holds.

pub const NUM_WORKGROUPS: u32 = 24;

pub const WORKGROUP_SIZE: u32 = 25;

pub const WORKGROUP_ID: u32 = 26;

pub const LOCAL_INVOCATION_ID: u32 = 27;

pub const GLOBAL_INVOCATION_ID: u32 = 28;

pub const LOCAL_INVOCATION_INDEX: u32 = 29;

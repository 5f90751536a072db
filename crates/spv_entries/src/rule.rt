// The rules of this crate, by their numbers.

/// A Uniform or StorageBuffer variable has no set or binding, or stands where one of the other class stands.
pub const BINDING: u16 = 603;

/// An entry point has the name of an earlier one.
pub const ENTRY_NAME: u16 = 604;

/// An entry point has no workgroup size, two of one kind, or one that does not fit; or a mode names no entry point.
pub const LOCAL_SIZE: u16 = 605;

/// An entry point's function is none, has parameters, returns something, or is called.
pub const ENTRY_FUNCTION: u16 = 606;

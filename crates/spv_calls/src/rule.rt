// The rules of this crate, by their numbers.

/// A function reaches itself by calls.
pub const CALL_CYCLE: u16 = 601;

/// An entry point lists what is no global variable, or one twice, or lacks one that its function or one that it
/// reaches names.
pub const INTERFACE: u16 = 602;

// The rule on definitions that are not available, by its number.

/// An operand is not defined where it is used.
pub const NOT_AVAILABLE: u16 = 503;

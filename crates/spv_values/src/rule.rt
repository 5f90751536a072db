// The rules on the types of values, by their numbers.

/// An operand is not of the type that its instruction asks for.
pub const OPERAND_TYPE: u16 = 501;

/// A result's type is not the one that its instruction gives.
pub const RESULT_TYPE: u16 = 502;

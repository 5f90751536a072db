// The rules of the profile, by their numbers. A module is refused for one of them, at a word offset.

/// The input has fewer than 20 bytes.
pub const SHORT_INPUT: u16 = 1;

/// The input's length in bytes is no multiple of 4.
pub const ODD_LENGTH: u16 = 2;

/// The first word is the magic number in neither byte order.
pub const NOT_SPIRV: u16 = 3;

/// The version is not 1.6.
pub const VERSION: u16 = 101;

/// The schema is not 0.
pub const SCHEMA: u16 = 102;

/// The bound is 0 or above 4,194,303, or an id is 0 or not below the bound.
pub const BOUND: u16 = 103;

/// An instruction's word count is 0.
pub const ZERO_COUNT: u16 = 104;

/// An instruction's word count passes the module's last word.
pub const PAST_END: u16 = 105;

/// The profile does not have the opcode, or the one that an OpSpecConstantOp names.
pub const UNKNOWN_OPCODE: u16 = 106;

/// The words of an instruction do not fit its operands.
pub const OPERAND_COUNT: u16 = 107;

/// A string has no octet of zero, is not UTF-8, or is padded with another octet than zero.
pub const BAD_STRING: u16 = 108;

/// The profile does not have an enumerant, a mask or the name of an import.
pub const BAD_ENUMERANT: u16 = 109;

/// An instruction's section comes before one that has begun.
pub const LAYOUT_ORDER: u16 = 201;

/// There is no OpCapability Shader.
pub const MISSING_CAPABILITY: u16 = 202;

/// There is no OpMemoryModel, or this is a second one.
pub const MISSING_MEMORY_MODEL: u16 = 203;

/// There is no OpEntryPoint.
pub const MISSING_ENTRY_POINT: u16 = 204;

/// A function or a block begins, ends or has an instruction where it may not.
pub const FUNCTION_SHAPE: u16 = 205;

/// An id is defined twice.
pub const ID_TWICE: u16 = 301;

/// An id that is named is defined nowhere, or by no instruction before a declaration that names it.
pub const ID_UNKNOWN: u16 = 302;

/// A declaration of a type is none of the profile, or occurs twice.
pub const BAD_TYPE: u16 = 303;

/// A constant does not fit its type.
pub const BAD_CONSTANT: u16 = 304;

/// An OpSpecConstantOp does not fit the operation that it names.
pub const BAD_SPEC_OP: u16 = 305;

/// A decoration does not fit its target, or is repeated.
pub const BAD_DECORATION: u16 = 306;

/// The type of a global variable of a buffer is not laid out.
pub const BAD_LAYOUT: u16 = 307;

/// A global variable does not fit its pointer, its storage class or its initial value.
pub const BAD_GLOBAL: u16 = 308;

/// A type nests more than 255 deep.
pub const TYPE_DEPTH: u16 = 309;

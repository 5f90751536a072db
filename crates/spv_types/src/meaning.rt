use crate::facts::TypeFacts;
use spv_value::Operand;

/// The words of a constant.
#[derive(Debug, Drop)]
pub enum Value {
    /// Those of a scalar or a vector.
    Small(Operand),
    /// Zeros, of an array or a struct.
    Zeros,
    /// Those of the constituents of an array or a struct, which are named by their numbers among the meanings.
    Parts(Vec<u32>),
}

/// What is kept of a constant.
#[derive(Debug, Drop)]
pub struct Constant {
    /// A specialisation may change it.
    pub is_specialised: bool,
    /// How many words it has. None where that passes 64 bits.
    pub cells: Option<u64>,
    pub value: Value,
}

/// Whether an id is a constant, and whether a specialisation may change it.
#[derive(Clone, Copy, Debug, PartialEq, Eq)]
pub enum ConstKind {
    /// No specialisation changes its words.
    Known,
    /// A specialisation may change its words.
    Specialised,
    /// The id is no constant.
    NotConstant,
}

/// What is kept of an id that is defined outside functions.
#[derive(Debug, Drop)]
pub enum Kept {
    Type(TypeFacts),
    /// A pointer, by the type that it points to.
    Pointer(TypeFacts),
    Constant(Constant),
    Variable,
}

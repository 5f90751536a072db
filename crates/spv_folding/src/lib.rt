//! What OpSpecConstantOp computes of constants that are scalars and vectors.
#![tactic(auto)]

mod operands;
mod operations;

pub use operands::{component, of_word, of_words, with_component, zeros};
pub use operations::{evaluate, shuffle};

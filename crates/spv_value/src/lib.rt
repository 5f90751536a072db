//! Evaluation of instructions at words, as the stated machine computes.
#![tactic(auto)]

mod arith;
mod bits;
mod compare;
mod evaluation;
mod ext;
mod fields;
mod shapes;
mod words;

pub use evaluation::{eval, ext_eval};
pub use words::{Answered, Operand};

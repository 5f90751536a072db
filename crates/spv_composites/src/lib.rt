//! The rules on operands and results of instructions on vectors, composites, copies and memory.
#![tactic(auto)]

pub mod composites;
pub mod forms;
pub mod laws;
pub mod lengths;
pub mod memory;
mod numbering;
mod parts;
pub mod rules;
pub mod vectors;

pub use forms::Forms;
pub use laws::{lengths_law, matches_law};
pub use rules::{broken_composite_rule, operands_fit, result_fits};

//! Trees of functions in which what is used is available.
//!
//! The definitions are in `specs/`; each function here has laws or facts over them as its contract, and does nothing when it
//! is called.
#![tactic(auto)]

mod facts;
mod laws;

pub use facts::facts_of_fine_trees;
pub use laws::{available_law, passing_law};

//! Modules that are built of instructions and of functions as trees.
//!
//! The definitions are in `specs/`; each function here has laws or facts over them as its contract, and does nothing when it
//! is called.
#![tactic(auto)]

mod facts;
mod laws;

pub use facts::facts_of_built_modules;
pub use laws::built_law;

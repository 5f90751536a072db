//! How the blocks of a function spell its tree: definitions, and the laws of the ways through its blocks.
//!
//! The definitions are in `specs/`; each function here has laws over them as its contract, and does nothing when it is
//! called.
#![tactic(auto)]

mod facts;
mod laws;

pub use facts::facts_of_spelling;
pub use laws::{clean_law, paths_law};

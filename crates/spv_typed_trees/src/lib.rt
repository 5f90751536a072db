//! Trees of functions that break no rule on types, storage, orderings, calls and returns.
//!
//! The definitions are in `specs/`; each function here has laws or facts over them as its contract, and does nothing when it
//! is called.
#![tactic(auto)]

mod facts;
mod laws;

pub use facts::facts_of_typed_trees;
pub use laws::typed_trees_law;

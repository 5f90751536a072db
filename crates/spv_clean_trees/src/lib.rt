//! What a function in which no rule is broken spells is structured.
//!
//! The definitions are in `specs/` and in `spv_spelling` and `spv_structured`; each function here has laws over them as its
//! contract, and does nothing when it is called.
#![tactic(auto)]

mod facts;
mod laws;

pub use facts::facts_of_clean_trees;
pub use laws::{structured_law, unbroken_law};

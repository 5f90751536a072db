//! The listing of the tree that a clean function spells, spells that tree again.
//!
//! The definitions are in `specs/` and in `spv_spelling` and `spv_structured`; each function here has laws over them as its
//! contract, and does nothing when it is called.
#![tactic(auto)]

mod facts;
mod laws;

pub use facts::facts_of_normal_trees;
pub use laws::{exits_law, normal_law, reading_law, respelling_law};

//! What the blocks of a function spell is a sound tree, as deep as the walk: laws.
//!
//! The definitions are in `specs/` and in the crates below; each function here has laws over them as its contract, and
//! does nothing when it is called.
#![tactic(auto)]

mod facts;
mod laws;

pub use facts::facts_of_trees;
pub use laws::sound_law;

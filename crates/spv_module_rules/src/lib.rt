//! The rules on the whole module, 601 to 607, as one: the first broken one.
#![tactic(auto)]

mod exits;
pub mod laws;
mod whole;

pub use whole::check_whole;

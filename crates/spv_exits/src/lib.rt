//! The rule on many exits: at an OpLabel, how many blocks branch there, and how many returns of the module are nested.
#![tactic(auto)]

pub mod crowding;
pub mod laws;
pub mod nesting;
pub mod rule;

pub use crowding::first_crowded;
pub use nesting::{add_nested, nested_returns};

//! The rules on bindings and entry points: 603 to 606.
#![tactic(auto)]

pub mod bindings;
pub mod entries;
mod keys;
pub mod mode;
pub mod names;
pub mod naming;
pub mod rule;

pub use entries::Entries;

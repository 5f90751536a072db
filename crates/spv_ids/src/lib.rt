//! Where the ids of a module are defined, what is said of them there, and the rules that each is defined once
//! and that what is named is defined.
#![tactic(auto)]

pub mod definitions;
pub mod rules;
mod table;
pub mod words;

pub use definitions::Definitions;
pub use rules::broken_id_rule;
pub use words::{word, words_from};

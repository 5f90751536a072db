//! A function whose instructions spell a tree stands in its module as that tree: laws and facts alone.
//!
//! The definitions are in `specs/`; each function here has laws or facts over them as its contract, and does nothing
//! when it is called.
#![tactic(auto)]

mod facts;
mod laws;

pub use facts::facts_of_spelled;
pub use laws::{agreement_law, standing_law};

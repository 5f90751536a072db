//! Trees whose functions, as they are listed, break no rule on structured control flow: definitions and laws alone.
//!
//! The definitions are in `specs/`; each function here has laws or facts over them as its contract, and does nothing
//! when it is called.
#![tactic(auto)]

mod facts;
mod laws;

pub use facts::facts_of_structure;
pub use laws::{blocks_law, standing_law, unbroken_law};

//! The rules on structured control flow, said of a function as a list of blocks.
//!
//! The definitions are in `specs/`; each function here has laws or facts over them as its contract, and does nothing
//! when it is called.
#![tactic(auto)]

mod facts;
mod laws;
pub mod tables;

pub use facts::{
    facts_of_cases, facts_of_entering, facts_of_exits, facts_of_loops, facts_of_merge_instructions,
    facts_of_phis, facts_of_selections, facts_of_switches, facts_of_terminators,
};
pub use laws::{numbering_law, numbers_law};

//! What the instructions of a SPIR-V module say, one by one, and what its ids outside functions stand for: types,
//! constants under a specialisation, and variables.
//!
//! The definitions are in `specs/`; each function here has facts over them as its contract, and does nothing when it is
//! called.
#![tactic(auto)]

mod computations;
mod constants;
mod statements;

pub use computations::{facts_of_computations, facts_of_extended_instructions};
pub use constants::{
    facts_of_constants, facts_of_meanings, facts_of_parts, facts_of_specialisation,
};
pub use statements::{facts_of_declarations, facts_of_instructions, facts_of_rows};

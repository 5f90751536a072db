//! The machine of SPIR-V compute shaders: what a module does under a dispatch.
//!
//! The definitions are in `specs/`; each function here has laws or facts over them as its contract, and does nothing
//! when it is called.
#![tactic(auto)]

mod facts;
mod laws;
mod memory_facts;
mod value_facts;

pub use facts::{
    facts_of_control, facts_of_dispatches, facts_of_doubling, facts_of_effects, facts_of_places,
    facts_of_two_invocations, facts_of_volatility, facts_of_wrong_passes,
};
pub use laws::{schedules_law, silence_law, strip_law};
pub use memory_facts::{
    facts_of_atomics, facts_of_builtins, facts_of_classes, facts_of_lengths, facts_of_sharing,
};
pub use value_facts::{facts_of_sizes, facts_of_switches, facts_of_values};

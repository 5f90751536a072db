//! The normal form of a module uses what is available where it stands, as the module does.
//!
//! The definitions are in `specs/` and in the crates on availability and normal forms; the function here has a law over
//! them as its contract, and does nothing when it is called.
#![tactic(auto)]

ghost use Rattle.spv_norm_available.specs.Laws.{NormIsAvailable};

/// The normal form of a module in which rule 503 is broken nowhere breaks it nowhere.
pub fn norm_law()
    ensures { NormIsAvailable }
{}

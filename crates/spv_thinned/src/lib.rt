//! Modules from which some instructions are dropped, and what of the others stays the same.
//!
//! The definitions are in `specs/`; the function here has a law over them as its contract, and does nothing when it is
//! called.
#![tactic(auto)]

ghost use Rattle.spv_thinned.specs.Thinned.{ThinnedIsAlike};

/// A module that breaks no rule on declarations and what is left of it, where what is dropped defines nothing that what
/// is kept uses, are alike but for what has gone.
pub fn thinned_law()
    ensures { ThinnedIsAlike }
{}

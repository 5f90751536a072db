//! A module from which instructions are dropped breaks no rule on calls and entry points, if it broke none and its entry
//! points, their modes and the size of workgroups are kept.
//!
//! The definitions are in `specs/`; the function here has a law over them as its contract, and does nothing when it is
//! called.
#![tactic(auto)]

ghost use Rattle.spv_thinned_entries.specs.Laws.{ThinnedIsEntered};

/// What is left of a module that breaks none of the rules 601 to 606 breaks none of them: fewer calls, fewer uses.
pub fn entered_law()
    ensures { ThinnedIsEntered }
{}

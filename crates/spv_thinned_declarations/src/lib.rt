//! A module from which instructions are dropped breaks no rule on declarations, if it broke none.
//!
//! The statement is in `specs/`; the function here has it as its contract, and does nothing when it is called.
#![tactic(auto)]

ghost use Rattle.spv_thinned_declarations.specs.Laws.{ThinnedIsDeclared};

/// What is left of a module that breaks none of the rules 301 to 309 breaks none of them.
pub fn declared_law()
    ensures { ThinnedIsDeclared }
{}

//! Modules to whose declarations an instruction is added: a type, a constant or a global variable.
//!
//! The definitions are in `specs/`; the function here has laws over them as its contract, and does nothing when it is
//! called.
#![tactic(auto)]

ghost use Rattle.spv_added.specs.Laws.{AddedIsAlike, AddedIsDeclared, AddedIsEntered, AddedIsLaidOut};

/// A module that breaks no rule on declarations is the same with one declaration more, but for the id that this defines.
pub fn added_law()
    ensures alike { AddedIsAlike }
    ensures declared { AddedIsDeclared }
    ensures entered { AddedIsEntered }
    ensures laid_out { AddedIsLaidOut }
{}

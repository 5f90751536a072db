//! Modules in which ids stand for the same, and the rules that instructions break in both.
//!
//! The definitions are in `specs/`; the function here has a law over them as its contract, and does nothing when it is
//! called.
#![tactic(auto)]

ghost use Rattle.spv_alike.specs.Laws.{RulesStay};

/// Instructions of the same words break the same rules on types, storage, orderings, calls and returns in modules that are
/// alike.
pub fn rules_law()
    ensures { RulesStay }
{}

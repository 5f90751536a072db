//! Modules in which ids stand for the same, but for some ids that have gone, and the rules that instructions break in both.
//!
//! The definitions are in `specs/`; each function here has a law over them as its contract, and does nothing when it is
//! called.
#![tactic(auto)]

ghost use Rattle.spv_alike_uses.specs.Laws.{RulesStayBut, AlikeWithNothingGone};

/// Instructions of the same words that use no id that has gone break the same rules on types, storage, orderings, calls
/// and returns in modules that are alike but for such ids.
pub fn rules_law()
    ensures { RulesStayBut }
{}

/// Modules that are alike are alike with nothing gone.
pub fn nothing_law()
    ensures { AlikeWithNothingGone }
{}

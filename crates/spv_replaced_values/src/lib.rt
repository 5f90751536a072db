//! Instructions of functions in which uses of values are replaced by other values of the same types, and the rules that they
//! break.
//!
//! The definitions are in `specs/`; each function here has laws over them as its contract, and does nothing when it is
//! called.
#![tactic(auto)]

ghost use Rattle.spv_replaced_values.specs.Laws.{FitsWhereReplaced, ReturnsWhereReplaced, UsesFitWhereReplaced};

/// In a module that breaks no rule on declarations, an instruction of a function fits where it fits before other values stand
/// in for values that it uses; and so do values that are carried, conditions, selectors and what is returned.
pub fn replaced_law()
    ensures steps { FitsWhereReplaced }
    ensures uses { UsesFitWhereReplaced }
    ensures returned { ReturnsWhereReplaced }
{}

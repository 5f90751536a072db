//! The normal form of a module breaks none of the rules on calls, interfaces, bindings and entry points.
//!
//! The definitions are in `specs/` and in `spv_calls`, `spv_entries` and `spv_norm_structured`; the function here has the law
//! over them as its contract, and does nothing when it is called.
#![tactic(auto)]

ghost use Rattle.spv_norm_entries.specs.Laws.{NormIsEntered};

/// Where no instruction of a module breaks a rule from 601 to 606, none of its normal form does.
pub fn entered_law()
    ensures entered { NormIsEntered }
{}

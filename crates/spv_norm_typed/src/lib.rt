//! The normal form of a module breaks no rule on bodies that the module does not break.
//!
//! The definitions are in `specs/` and in `spv_body_rules`, `spv_alike`, `spv_norm_structured` and the crates below them; the
//! function here has a law over them as its contract, and does nothing when it is called.
#![tactic(auto)]

ghost use Rattle.spv_norm_typed.specs.Laws.{NormIsTyped};

/// Where no instruction of a module breaks a rule on types, storage, orderings, calls and returns, no instruction of its normal
/// form does.
pub fn typed_law()
    ensures { NormIsTyped }
{}

//! The normal form of a module breaks rule 607 nowhere, where the module breaks it nowhere.
//!
//! The definitions are in `specs/` and in `spv_exits`, `spv_norm_structured` and the crates on trees; the function here has laws
//! over them as its contract, and does nothing when it is called.
#![tactic(auto)]

ghost use Rattle.spv_norm_exits.specs.Laws.{NormIsUncrowded, NormNestsAlike, ReadHasNested};

/// The functions of a module have a number of nested returns, its normal form has as many, and no block of that is crowded where none of the module is.
pub fn exits_law()
    ensures counted { ReadHasNested }
    ensures nested { NormNestsAlike }
    ensures uncrowded { NormIsUncrowded }
{}

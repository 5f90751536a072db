//! The normal form of a module breaks no rule on ids, types, constants, decorations and global variables.
//!
//! The definitions are in `specs/` and in the crates on declarations and on the normal form; the function here has a law over
//! them as its contract, and does nothing when it is called.
#![tactic(auto)]

ghost use Rattle.spv_norm_declarations.specs.Laws.{NormIsDeclared};

/// Where a module breaks no rule on declarations, its normal form breaks none.
pub fn declared_law()
    ensures declared { NormIsDeclared }
{}

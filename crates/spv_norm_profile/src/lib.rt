//! The normal form of a module of the profile is in the profile, and in normal form.
//!
//! The definitions are in `specs/` and in the crates on the rules and on normal forms; the function here has laws over
//! them as its contract, and does nothing when it is called.
#![tactic(auto)]

ghost use Rattle.spv_norm_profile.specs.Laws.{NormIsModule, NormIsParsed};

/// The normal form of a module of the profile breaks no rule of the profile, no function of it nests too deep, and it is its
/// own normal form. Its functions are read as the trees that those of the module are read as.
pub fn norm_law()
    ensures module { NormIsModule }
    ensures parsed { NormIsParsed }
{}

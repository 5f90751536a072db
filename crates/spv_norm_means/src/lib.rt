//! A module and its normal form make the same accesses.
//!
//! The definitions are in `specs/` and in `spv_norm`, `spv_machine` and the crates on trees; each function here has laws
//! over them as its contract, and does nothing when it is called.
#![tactic(auto)]

ghost use Rattle.spv_norm_means.specs.Facts.{SmallIsNormal, SmallIsRead, SmallMeans};
ghost use Rattle.spv_norm_means.specs.Laws.{CutKeeps, NormFinals, NormKeeps, NormKeepsOnce, StandAlike};

/// A module's normal form makes the accesses of the module, with the same workgroup size, and the same dispatches fit. So do
/// modules that say the same outside functions, and whose functions stand as the same trees; and a module of functions
/// that spell trees, and one of the listings of these.
pub fn norm_law()
    ensures alike { StandAlike }
    ensures cut { CutKeeps }
    ensures once { NormKeepsOnce }
    ensures norm { NormKeeps }
    ensures finals { NormFinals }
{}

/// A small module with a joined block and a line mark is read, has a normal form, and this means as much.
pub fn facts_of_norms()
    ensures read { SmallIsRead }
    ensures normal { SmallIsNormal }
    ensures means { SmallMeans }
{}

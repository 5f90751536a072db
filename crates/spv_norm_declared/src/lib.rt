//! The normal form of a module breaks no rule on instructions and on layout.
//!
//! The definitions are in `specs/` and in `spv_norm` and `spv_module`; the function here has laws over them as its contract,
//! and does nothing when it is called.
#![tactic(auto)]

ghost use Rattle.spv_norm_declared.specs.Laws.{NormDefinesAlike, NormDefinesAll, NormDefinesOnce, NormDefinesOutside, NormDefinesSame, NormIsCutAgain, NormIsDecoded, NormIsLaidOut, NormLinesAreInstructions};

/// The normal form of a module that breaks no rule on instructions and layout breaks none: its lines are instructions of the
/// profile, they are cut again where they are written as words, and they are laid out.
pub fn norm_law()
    ensures instructions { NormLinesAreInstructions }
    ensures again { NormIsCutAgain }
    ensures laid_out { NormIsLaidOut }
    ensures decoded { NormIsDecoded }
{}

/// What defines an id outside functions is the same in the normal form. Where no id is defined twice, what defines an id
/// there is what defines it in the module, or an OpPhi or OpCopyObject with the type and the result of an OpPhi; and what the
/// module defines is defined there so, but for labels that went. No id is defined twice there.
pub fn definitions_law()
    ensures outside { NormDefinesOutside }
    ensures alike { NormDefinesAlike }
    ensures all { NormDefinesAll }
    ensures once { NormDefinesOnce }
    ensures same { NormDefinesSame }
{}

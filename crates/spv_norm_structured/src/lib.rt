//! The normal form of a module is structured, and is its own normal form.
//!
//! The definitions are in `specs/` and in `spv_norm`, `spv_functions` and the crates on trees; each function here has laws
//! over them as its contract, and does nothing when it is called.
#![tactic(auto)]

ghost use Rattle.spv_norm_structured.specs.Laws.{FunctionsAgain, NormIsNormal, NormIsParsed, NormIsShallow, NormIsUnbroken, NormStays};

/// The functions of a module's normal form are the normal forms of the module's functions, and it is its own normal form.
pub fn normal_law()
    ensures functions { FunctionsAgain }
    ensures normal { NormIsNormal }
    ensures stays { NormStays }
{}

/// No function of a module's normal form breaks a rule on structured control flow, and none nests too deep: it is read as the
/// tree that the module's function is read as.
pub fn structured_law()
    ensures unbroken { NormIsUnbroken }
    ensures shallow { NormIsShallow }
    ensures parsed { NormIsParsed }
{}

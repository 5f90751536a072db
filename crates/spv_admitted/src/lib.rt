//! A module in which the rules find nothing is read, so its normal form means as much as the module.
//!
//! The definitions are in `specs/` and in the crates on rules, trees and normal forms; each function here has laws
//! over them as its contract, and does nothing when it is called.
#![tactic(auto)]

ghost use Rattle.spv_admitted.specs.Facts.{SmallFindsNothing};
ghost use Rattle.spv_admitted.specs.Laws.{AdmittedIsRead, AdmittedMeansAsMuch};

/// A module in which the rules on layout, declarations, structured control flow, bodies and entry points find nothing is
/// read; and its normal form makes the accesses of the module, with the same workgroup size, and the same dispatches fit.
pub fn admitted_law()
    ensures read { AdmittedIsRead }
    ensures means { AdmittedMeansAsMuch }
{}

/// The rules find nothing in a small module, with any tree of code that its function is read as.
pub fn facts_of_admitted()
    ensures { SmallFindsNothing }
{}

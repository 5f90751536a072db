//! A module and its normal form are alike: ids stand for the same in both.
//!
//! The definitions are in `specs/` and in `spv_alike` and `spv_norm`; the function here has a law over them as its contract,
//! and does nothing when it is called.
#![tactic(auto)]

ghost use Rattle.spv_norm_alike.specs.Laws.{NormIsAlike};

/// A module that breaks no rule on instructions, layout and declarations is like its normal form: values have their types,
/// what is no label, OpPhi or OpCopyObject is defined by the same words, and decorations, constants that are Known, forms of
/// types and parameters of functions are the same.
pub fn alike_law()
    ensures { NormIsAlike }
{}

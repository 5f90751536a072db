//! Editing a structured function leaves it structured, and its listing breaks no rule on structured control flow.
//!
//! The definitions are in `spv_editing`, `spv_structured` and the crates below them; each function here has laws over them as
//! its contract, and does nothing when it is called.
#![tactic(auto)]

ghost use Rattle.spv_structured_edits.specs.Exits.{ExitsStay};
ghost use Rattle.spv_structured_edits.specs.Laws.{OpensStays, OutlineStays, StructuredStays, UnbrokenStays, UnsoundMayNot, WalkStays};

/// An edited function is structured as it was, if it was sound, and opens as it did.
pub fn structured_law()
    ensures structured { StructuredStays }
    ensures unsound { UnsoundMayNot }
    ensures opens { OpensStays }
{}

/// No rule on structured control flow is broken in the listing of an edited function.
pub fn unbroken_law()
    ensures { UnbrokenStays }
{}

/// The blocks of an edited function have their labels and terminators as before, and are walked in the same contexts.
pub fn blocks_law()
    ensures outline { OutlineStays }
    ensures walk { WalkStays }
{}

/// As many blocks of an edited function branch to each label, and it has as many nested returns.
pub fn exits_law()
    ensures { ExitsStay }
{}

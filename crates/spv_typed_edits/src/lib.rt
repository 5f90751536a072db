//! Typed functions that are edited: what an edit has to keep for that what it makes is typed in another module.
//!
//! The definitions are in `specs/` and in `spv_typed_trees`, `spv_editing`, `spv_alike` and the crates below them; each function
//! here has laws over them as its contract, and does nothing when it is called.
#![tactic(auto)]

ghost use Rattle.spv_typed_edits.specs.Laws.{StepsWhereAlike, TypedStays, TypedWhereAlike, TypedWhereDropped, TypedWhereReplaced, TypesStandInFront};

/// A typed function that is edited is typed in the other module, where the lines that stand for its instructions fit there and
/// the ids that stand for those that it uses have their types there.
pub fn edited_law()
    ensures stays { TypedStays }
    ensures dropped { TypedWhereDropped }
    ensures replaced { TypedWhereReplaced }
{}

/// Where ids stand for the same in both modules, what fits and what is typed in one is so in the other as it is.
pub fn alike_law()
    ensures steps { StepsWhereAlike }
    ensures functions { TypedWhereAlike }
{}

/// Modules that begin with instructions of the same words have the same types, where what stands behind declares none.
pub fn types_law()
    ensures { TypesStandInFront }
{}

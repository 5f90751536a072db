//! What the rules on the layout of a module and on its ids say of each function: laws.
#![tactic(auto)]

ghost use Rattle.spv_spelling.specs.Whole.{LaidOut};
ghost use Rattle.spv_texts.specs.Laws.{BlocksWithoutMarks, LabelsAreOwn, UnbrokenDefinesOnce};

/// Where the layout of a module breaks no rule, each function is an OpFunction, its parameters, blocks and an
/// OpFunctionEnd.
pub fn layout_law()
    ensures { LaidOut }
{}

/// Line marks do not matter to the blocks of a function.
pub fn marks_law()
    ensures { BlocksWithoutMarks }
{}

/// Where the rules on ids find nothing, no two blocks of a function have one label.
pub fn labels_law()
    ensures once { UnbrokenDefinesOnce }
    ensures own { LabelsAreOwn }
{}

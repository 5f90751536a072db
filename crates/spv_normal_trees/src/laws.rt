// The laws of a function whose blocks spell a tree.

ghost use Rattle.spv_spelling.specs.Whole.{SpelledIsNormal};
ghost use Rattle.spv_normal_trees.specs.Laws.{EachBlockOnce, SameStays, BranchesOfBlocks, LinesOfBlocks};

/// In the order of the constructs each block stands once. The label that the normal form finds for a block is the one
/// that stays where the tree is spelled. The branches with values of the tree are the branches of blocks to fronts, each
/// once, with the values that the fronts take from the blocks.
pub fn order_law()
    ensures once { EachBlockOnce }
    ensures stays { SameStays }
    ensures branches { BranchesOfBlocks }
{}

/// The lines of the tree are those of the blocks in the normal form, block after block. So what a function's blocks
/// spell is listed in its normal form.
pub fn normal_form_law()
    ensures lines { LinesOfBlocks }
    ensures normal { SpelledIsNormal }
{}

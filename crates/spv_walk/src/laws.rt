// The laws of functions with other labels.

ghost use Rattle.spv_walk.specs.Laws.{RelabellingLaw, NumbersLaw, SameRulesLaw, SameFirstLaw, NumberedBlocksLaw, NumberedApartLaw};

/// A function whose labels are replaced, different ones by different ones, breaks the same rules at the same places. So
/// does the numbered function, in which the label of each block is its number where no two blocks have one label, and
/// the first broken rule is the same.
pub fn numbering_law()
    ensures relabelling { RelabellingLaw }
    ensures numbers { NumbersLaw }
    ensures same_rules { SameRulesLaw }
    ensures same_first { SameFirstLaw }
{}

/// Where the label of each block is its number, the block of a label is the one at that place, and no two blocks have
/// one label.
pub fn numbers_law()
    ensures blocks { NumberedBlocksLaw }
    ensures own_labels { NumberedApartLaw }
{}

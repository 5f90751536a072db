// Facts of small trees, which tell the laws from their likely mistakes.

ghost use Rattle.spv_clean_trees.specs.Facts.{LiteralTwice, OneBlock, PointersAreNotStructured, SpelledAreStructured};

/// What four small functions spell is structured, and the trees with an OpPhi are not where its type is a pointer. A
/// function in which a literal stands twice breaks a rule, and spells a tree that is not structured. Both laws hold of a
/// function of one block.
pub fn facts_of_clean_trees()
    ensures spelled { SpelledAreStructured }
    ensures pointers { PointersAreNotStructured }
    ensures twice { LiteralTwice }
    ensures one_block { OneBlock }
{}

// Facts of small functions, which tell the definitions from their likely mistakes.

ghost use Rattle.spv_sound_trees.specs.Facts.{OneBlockIsSound, SmallDepths};

/// A function of one block is admitted, and the tree that it spells is sound. Constructs count where one lies inside
/// another, and not where one stands behind another.
pub fn facts_of_trees()
    ensures one_block { OneBlockIsSound }
    ensures depths { SmallDepths }
{}

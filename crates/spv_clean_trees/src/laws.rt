// The laws of the tree that a clean function spells.

ghost use Rattle.spv_clean_trees.specs.Laws.{ListingIsUnbroken, NormalIsUnbroken, SpelledIsStructured};

/// The tree that a function spells, in which no rule on structured control flow is broken, is structured.
pub fn structured_law()
    ensures { SpelledIsStructured }
{}

/// Its listing breaks no rule on structured control flow either, and nor does the normal form of the function.
pub fn unbroken_law()
    ensures listing { ListingIsUnbroken }
    ensures normal { NormalIsUnbroken }
{}

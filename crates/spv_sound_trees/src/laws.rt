// The laws of trees that the blocks of an admitted function spell.

ghost use Rattle.spv_spelling.specs.Whole.{SpelledIsSound};
ghost use Rattle.spv_sound_trees.specs.Depth.{SpelledHasDepth};
ghost use Rattle.spv_sound_trees.specs.Short.{ShortByWords};

/// What the blocks of an admitted function spell is sound: no label stands twice, each exit goes to a front, branches
/// of one block to one target carry the same values, each construct is formed, and each loop in place stands where its
/// header is. It is as deep as the walk. Where the words of instructions fit in 32 bits, no instruction is too long for
/// an admitted function.
pub fn sound_law()
    ensures spelled { SpelledIsSound }
    ensures deep { SpelledHasDepth }
    ensures short { ShortByWords }
{}

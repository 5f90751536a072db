// Facts of small trees, which tell the laws from their likely mistakes.

ghost use Rattle.spv_respelling.specs.Facts.{NotNormal, OneBlockStays, PlainAreNormal, SpelledAreNormal, TwoExits};

/// What four small functions spell is normal, and so is a loop without parameters. Two blocks that could be one, arms in
/// another order and parameters that name some of the blocks alone are not. A function of one block is its own normal
/// form, and spells its tree. Where both targets of a branch are exits, two trees are listed alike, and one of them takes
/// the first.
pub fn facts_of_normal_trees()
    ensures spelled { SpelledAreNormal }
    ensures plain { PlainAreNormal }
    ensures not { NotNormal }
    ensures one_block { OneBlockStays }
    ensures exits { TwoExits }
{}

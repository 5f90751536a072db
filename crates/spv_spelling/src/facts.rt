// Facts of small functions, which tell the definitions from their likely mistakes.

ghost use Rattle.spv_spelling.specs.Facts.{BlocksAreJoined, SelectionsAreSpelled, SwitchesAreSpelled, LoopsAreSpelled};

/// Small functions spell their trees, and each tree is listed in the normal form: two blocks that are joined, with an
/// OpPhi as a copy; a selection with a joined block; a switch whose default leaves it, with two literals of one arm; a
/// loop with a parameter and a conditional exit.
pub fn facts_of_spelling()
    ensures joined { BlocksAreJoined }
    ensures selections { SelectionsAreSpelled }
    ensures switches { SwitchesAreSpelled }
    ensures loops { LoopsAreSpelled }
{}

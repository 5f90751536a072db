// Facts of small modules, which tell the definitions from their likely mistakes.

ghost use Rattle.spv_standing.specs.Facts.{InTurnIsNotApart, JoinedIsAdmitted, JoinedIsSpelled, JoinedStands};

/// In a small module with a joined block no rule is broken, its function is spelled, and stands as a tree in which the
/// OpPhi of that block is a copy. Where an OpPhi of a joined block takes the result of one before it, copies would not do.
pub fn facts_of_spelled()
    ensures admitted { JoinedIsAdmitted }
    ensures spelled { JoinedIsSpelled }
    ensures stands { JoinedStands }
    ensures in_turn { InTurnIsNotApart }
{}

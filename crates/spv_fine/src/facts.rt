// Facts of small trees, which tell the definition from its likely mistakes.

ghost use Rattle.spv_fine.specs.Facts.{AreFine, NotFine};

/// A value of one arm is not available behind the merge block, whatever is promised; an OpPhi of it is, and so is the value
/// itself where no other arm goes there. A value of a loop's body is available in the continue part, and not behind a loop
/// that may be left before.
pub fn facts_of_fine_trees()
    ensures not { NotFine }
    ensures fine { AreFine }
{}

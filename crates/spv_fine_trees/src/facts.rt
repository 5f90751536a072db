// Facts of small functions, which tell the definition from its likely mistakes.

ghost use Rattle.spv_fine_trees.specs.Facts.{PromisedBehind};

/// At a merge block what the header's block defines is promised; what one arm defines is only where no other arm goes there.
pub fn facts_of_promises()
    ensures { PromisedBehind }
{}

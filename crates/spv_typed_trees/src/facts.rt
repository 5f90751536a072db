// Facts of small trees, which tell the definition from its likely mistakes.

ghost use Rattle.spv_typed_trees.specs.Facts.{AreTyped, NotTyped};

/// A selection that carries sums and constants to an OpPhi of their type is typed, and a variable at the head. A boolean there,
/// a condition that is an integer, an exit to no front, a boolean that is returned and a variable behind a sum are refused.
pub fn facts_of_typed_trees()
    ensures typed { AreTyped }
    ensures not { NotTyped }
{}

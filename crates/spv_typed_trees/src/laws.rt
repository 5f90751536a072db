// The laws of typed trees.

ghost use Rattle.spv_typed_trees.specs.Laws.{SpelledAreListed, TypedIsUnbroken, UnbrokenIsTyped};

/// The instructions of a function, as its tree is listed, break no rule on bodies where it is typed, and only there.
/// So it is with the tree that some function spells in which no rule on structured control flow is broken.
pub fn typed_trees_law()
    ensures unbroken { TypedIsUnbroken }
    ensures typed { UnbrokenIsTyped }
    ensures listed { SpelledAreListed }
{}

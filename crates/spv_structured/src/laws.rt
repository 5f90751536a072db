// The laws of structured trees.

ghost use Rattle.spv_structured.specs.Laws.{ListedBlocks, StructuredIsUnbroken, StructuredStands};

/// A function that is sound as a tree and structured stands as its tree says.
pub fn standing_law()
    ensures { StructuredStands }
{}

/// The blocks of a function as it is listed are those of its tree.
pub fn blocks_law()
    ensures { ListedBlocks }
{}

/// No rule on structured control flow is broken in a structured function as it is listed.
pub fn unbroken_law()
    ensures { StructuredIsUnbroken }
{}

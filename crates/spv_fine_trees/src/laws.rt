// The laws of trees that are spelled.

ghost use Rattle.spv_fine_trees.specs.Laws.{LinesAreFine, ReadIsFine};

/// Where the instructions of a function use what is available, the tree that it spells is fine, under the promise that every
/// way to a label has passed the definition of an id. So it is where the lines of its blocks use what is there.
pub fn read_law()
    ensures fine { ReadIsFine }
    ensures lines { LinesAreFine }
{}

// The laws of functions in which no rule on structured control flow is broken.

ghost use Rattle.spv_spelling.specs.Clean.{CleanWithoutPointers, CleanByTables, CleanIsSettled};
ghost use Rattle.spv_spelling.specs.Paths.{WalkHasPath, PathIsWalked, OneParent, OneLength, PathsAreShort, PartsAreApart, NoneIsBehindItself};

/// Where no rule is broken, none is if no type is a pointer. Tables tell where none is. Each walked block ends with a
/// terminator, each of its targets is an exit or is entered, and its construct's labels may be walked to.
pub fn clean_law()
    ensures without_pointers { CleanWithoutPointers }
    ensures by_tables { CleanByTables }
    ensures settled { CleanIsSettled }
{}

/// Each walked block has a path from the first, and what has one is walked. A block is directly behind one block alone.
/// Where no rule is broken, its path has one length, which is below the number of blocks; what is behind one of two
/// blocks that are directly behind a third is not behind the other, and no block is behind itself.
pub fn paths_law()
    ensures walk_has_path { WalkHasPath }
    ensures path_is_walked { PathIsWalked }
    ensures one_parent { OneParent }
    ensures one_length { OneLength }
    ensures short { PathsAreShort }
    ensures apart { PartsAreApart }
    ensures not_behind_itself { NoneIsBehindItself }
{}

// The laws of functions that are spelled by instructions of a module.

ghost use Rattle.spv_standing.specs.Laws.{AllSpelledStand, SpelledAgrees, SpelledConverse, SpelledProgram, SpelledStands};

/// The instructions of a function that spell a tree stand as that tree, wherever they stand in a module that has no label
/// twice. So functions that are spelled stand, with all that they call.
pub fn standing_law()
    ensures one { SpelledStands }
    ensures all { AllSpelledStand }
{}

/// So the machine over statements does with them what their trees mean, and the other way round, and the traces of an
/// invocation that are over are those of the tree of the entry point's function.
pub fn agreement_law()
    ensures agrees { SpelledAgrees }
    ensures converse { SpelledConverse }
    ensures program { SpelledProgram }
{}

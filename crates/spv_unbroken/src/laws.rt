// The laws of functions that break no rule, as contracts.

ghost use Rattle.spv_structured.specs.Laws.{UnbrokenIsStructured};
ghost use Rattle.spv_unbroken.specs.Laws.{AgreesAsAWhole, AgreesConversely, NamedIsUnbrokenTree, PrunedDoesTheSame, PrunedIsUnbroken, SoundAgrees, UnbrokenAgrees, UnbrokenStands};

/// A sound function in whose listing no rule on structured control flow is broken is structured.
pub fn converse_law()
    ensures { UnbrokenIsStructured }
{}

/// So it is sound to the laws of trees, and stands where it is listed as its tree says.
pub fn unbroken_stands_law()
    ensures sound { SoundAgrees }
    ensures stands { UnbrokenStands }
{}

/// Where arms are not named: without these the function is unbroken, as it is listed in the same instructions, and does
/// what it did.
pub fn pruning_law()
    ensures named { NamedIsUnbrokenTree }
    ensures unbroken { PrunedIsUnbroken }
    ensures same { PrunedDoesTheSame }
{}

/// So machine and tree agree on functions that are listed in a module and break no rule there, whatever their arms: only
/// one that is a loop has to be named, or each exit of the function to be to a construct round it.
pub fn unbroken_agreement_law()
    ensures unbroken_agrees { UnbrokenAgrees }
    ensures converse { AgreesConversely }
    ensures program { AgreesAsAWhole }
{}

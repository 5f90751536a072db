// The laws of functions of which instructions and uses are replaced.

ghost use Rattle.spv_editing.specs.Laws.{UnchangedLaw, TwiceLaw, DepthLaw, EnteredLaw, FrontsLaw, BranchesLaw, ShownLaw, StepsLaw, UsesLaw, SoundLaw};

/// Editing with nothing to replace gives the same function, and two edits are one. The depth, the blocks and the fronts stay.
pub fn edited_law()
    ensures unchanged { UnchangedLaw }
    ensures twice { TwiceLaw }
    ensures depth { DepthLaw }
    ensures entered { EnteredLaw }
    ensures fronts { FrontsLaw }
    ensures branches { BranchesLaw }
{}

/// What is shown of an edited body is what stands for what is shown of the body.
pub fn shown_law()
    ensures shown { ShownLaw }
    ensures steps { StepsLaw }
    ensures uses { UsesLaw }
{}

/// An edit that makes instructions of blocks of such instructions keeps a sound function sound.
pub fn sound_law()
    ensures { SoundLaw }
{}

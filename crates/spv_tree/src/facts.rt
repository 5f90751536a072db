ghost use Rattle.spv_tree.specs.Facts.{OthersAreNot, SamplesAreSound};

/// Facts of small functions that are sound, and of some that are not. Does nothing.
pub fn facts_of_soundness()
    ensures sound { SamplesAreSound }
    ensures refused { OthersAreNot }
{}

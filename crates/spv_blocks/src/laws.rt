ghost use Rattle.std.specs.Prelude.{List};
ghost use Rattle.spv_module.specs.Instruction.{Instruction};
ghost use Rattle.spv_blocks.specs.Blocks.{Code};
ghost use Rattle.spv_blocks.specs.Laws.{AreFound, AreCounted};

/// The place of a label is that of its block, and rows lead to where blocks branch. Does nothing.
#[tactic(auto, using(crate::proofs::FoundLaws::are_found))]
pub fn labels_law()
    ensures { (f : Code) → AreFound f }
{}

/// A module has as many starts of functions as OpFunction. Does nothing.
#[tactic(auto, using(crate::proofs::FoundLaws::are_counted))]
pub fn starts_law()
    ensures { (insts : List Instruction) → AreCounted insts }
{}

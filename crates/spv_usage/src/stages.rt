ghost use Rattle.std.specs.Prelude.{◌≡◌, ◌+◌, ◌<◌, ℕ, Some, List, slice_get};
ghost use Rattle.spv_module.specs.Instruction.{Instruction};
ghost use Rattle.spv_module.specs.View.{seen};
ghost use Rattle.spv_usage.specs.Stages as stages;
ghost use Rattle.spv_usage.specs.Stages.{IsStage};

use spv_module::View;
use spv_opcodes::op;

/// Where an instruction stands, as far as OpVariable asks.
#[derive(Clone, Copy, Debug, PartialEq, Eq)]
pub enum Stage {
    /// Before the first function.
    Outside,
    /// Behind an OpFunction, before its first OpLabel.
    Head,
    /// Behind the first OpLabel of a function, and behind OpVariable alone.
    Opening,
    /// Further on in a function.
    Further,
}

impl Stage {
    /// The stage of the first instruction of a module.
    pub fn first() -> Stage
        ensures { (insts : List Instruction) → IsStage insts 0 result }
    {
        Stage::Outside
    }

    /// Goes on to the instruction behind this one.
    pub fn next(&mut self, inst: &View)
        ensures { (insts : List Instruction) (k : ℕ) → IsStage insts k self.old → slice_get insts k ≡ Some (seen inst.now) → IsStage insts (k + 1) self.new }
    {
        *self = self.behind(inst);
    }

    fn behind_label(self) -> Stage
        ensures { result ≡ stages.behind_label self }
    {
        match self {
            Stage::Outside => Stage::Outside,
            Stage::Head => Stage::Opening,
            Stage::Opening | Stage::Further => Stage::Further,
        }
    }

    fn behind_other(self) -> Stage
        ensures { result ≡ stages.behind_other self }
    {
        match self {
            Stage::Outside => Stage::Outside,
            Stage::Head => Stage::Head,
            Stage::Opening | Stage::Further => Stage::Further,
        }
    }

    /// The stage behind an instruction.
    fn behind(self, inst: &View) -> Stage
        ensures { result ≡ stages.stage_behind self (seen inst.now) }
    {
        match inst.opcode() {
            op::LINE | op::NO_LINE | op::VARIABLE => self,
            op::FUNCTION => Stage::Head,
            op::LABEL => self.behind_label(),
            _ => self.behind_other(),
        }
    }
}

ghost use Rattle.std.specs.Prelude.{◌≡◌, ◌+◌, ◌||◌, ◌&&◌, not, ℕ, Some, List, slice_get};
ghost use Rattle.spv_module.specs.Code.{is_function, is_line as line_in};
ghost use Rattle.spv_module.specs.Instruction.{Instruction};
ghost use Rattle.spv_module.specs.View.{seen};
ghost use Rattle.spv_usage.specs.Stages.{is_outside};
ghost use Rattle.spv_body_rules.specs.Broken as broken;
ghost use Rattle.spv_body_rules.specs.Standings.{IsStanding};

use spv_module::View;
use spv_module::layout::is_line;
use spv_opcodes::op;
use spv_signatures::Context;
use spv_typing::Kinds;
use spv_usage::Stage;

/// Where an instruction stands, as far as the rules on the instructions of functions ask.
#[derive(Clone, Copy, Debug)]
pub struct Standing<'a> {
    pub(crate) stage: Stage,
    pub(crate) context: Context<'a>,
}

impl<'a> Standing<'a> {
    /// Where the first instruction of a module stands.
    pub fn first() -> Standing<'a>
        ensures { (insts : List Instruction) → IsStanding insts 0 result }
    {
        Standing {
            stage: Stage::first(),
            context: Context::first(),
        }
    }

    /// Goes on to the instruction behind this one.
    pub fn next(&mut self, kinds: &Kinds<'a>, inst: &View)
        ensures { (k : ℕ) → IsStanding kinds.now k self.old → slice_get kinds.now k ≡ Some (seen inst.now) → IsStanding kinds.now (k + 1) self.new }
    {
        self.stage.next(inst);
        self.context.next(kinds, inst);
    }

    /// Whether a function has begun before what stands here.
    fn is_behind_function(&self) -> bool
        ensures { result ≡ not (is_outside self.now.stage) }
    {
        !matches!(self.stage, Stage::Outside)
    }

    /// Whether a function begins with the instruction that stands here, or has begun before.
    fn has_begun(&self, inst: &View) -> bool
        ensures { result ≡ (not (is_outside self.now.stage) || is_function (seen inst.now)) }
    {
        self.is_behind_function() || inst.opcode() == op::FUNCTION
    }

    /// Whether the instruction that stands here is one of functions, and no line mark.
    pub fn is_of_functions(&self, inst: &View) -> bool
        ensures { (insts : List Instruction) (k : ℕ) → IsStanding insts k self.now → result ≡ broken.is_of_functions insts k (seen inst.now) }
    {
        self.has_begun(inst) && !is_line(inst)
    }
}

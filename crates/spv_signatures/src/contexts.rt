ghost use Rattle.std.specs.Prelude.{◌≡◌, ◌+◌, cond, ℕ, Some, List, slice_get, slice_index};
ghost use Rattle.spv_module.specs.Code.{is_function};
ghost use Rattle.spv_module.specs.Instruction.{Instruction};
ghost use Rattle.spv_module.specs.View.{seen};
ghost use Rattle.spv_signatures.specs.Contexts.{IsContext, next_type_at, types_behind as types_behind_one};

use crate::functions::parameter_types;
use spv_ids::word;
use spv_module::View;
use spv_opcodes::op;
use spv_typing::Kinds;

/// What is kept of the function that an instruction stands in. Outside functions it is that of the function before,
/// and there is nothing before the first.
#[derive(Clone, Copy, Debug)]
pub struct Context<'a> {
    /// The result type of the function; 0 where there is none.
    pub(crate) result_type: u32,
    /// The parameter types that the function's type has for the parameters to come.
    types: &'a [u32],
}

impl<'a> Context<'a> {
    /// The context of the first instruction of a module.
    pub fn first() -> Context<'a>
        ensures { (insts : List Instruction) → IsContext insts 0 result }
    {
        Context {
            result_type: 0,
            types: &[],
        }
    }

    /// The parameter type that the function's type has for its next parameter. None where it has no more.
    pub fn next_type(&self) -> Option<u32>
        ensures { (insts : List Instruction) (k : ℕ) → IsContext insts k self.now → result ≡ next_type_at insts k }
    {
        self.types.first().copied()
    }

    /// The result type of the function that the instruction behind this one stands in.
    fn result_type_behind(&self, inst: &View) -> u32
        ensures { result ≡ cond (is_function (seen inst.now)) (slice_index (seen inst.now).words 1) self.now.result_type }
    {
        if inst.opcode() == op::FUNCTION {
            word(inst, 1)
        } else {
            self.result_type
        }
    }

    /// The parameter types to come behind an instruction.
    fn types_behind(&self, kinds: &Kinds<'a>, inst: &View) -> &'a [u32]
        ensures { result.now ≡ types_behind_one kinds.now self.now.types.now (seen inst.now) }
    {
        match inst.opcode() {
            op::FUNCTION => parameter_types(kinds, word(inst, 4)),
            op::FUNCTION_PARAMETER => match self.types {
                [_, types @ ..] => types,
                [] => &[],
            },
            _ => self.types,
        }
    }

    /// Goes on to the instruction behind this one.
    pub fn next(&mut self, kinds: &Kinds<'a>, inst: &View)
        ensures { (k : ℕ) → IsContext kinds.now k self.old → slice_get kinds.now k ≡ Some (seen inst.now) → IsContext kinds.now (k + 1) self.new }
    {
        *self = Context {
            result_type: self.result_type_behind(inst),
            types: self.types_behind(kinds, inst),
        };
    }
}

ghost use Rattle.std.specs.Prelude.{◌≡◌};
ghost use Rattle.spv_module.specs.View.{seen};
ghost use Rattle.spv_signatures.specs.Contexts as contexts;

use crate::functions::{names_function, return_type};
use spv_ids::word;
use spv_module::View;
use spv_opcodes::op;
use spv_typing::Kinds;
use spv_values::is_value_of;

/// Whether the result type of a function is the return type of its type, that of a parameter the type that its
/// function has for its next one, `next_type`, and that of a call the result type of the callee. Every other
/// instruction passes, and so does a call of what is no function.
#[tactic(auto, unfolding(crate::specs::Contexts::result_fits))]
pub fn result_fits(kinds: &Kinds, next_type: Option<u32>, inst: &View) -> bool
    ensures { result ≡ contexts.result_fits kinds.now next_type (seen inst.now) }
{
    match inst.opcode() {
        op::FUNCTION => return_type(kinds, word(inst, 4)) == word(inst, 1),
        op::FUNCTION_PARAMETER => match next_type {
            Some(t) => t == word(inst, 1),
            None => false,
        },
        op::FUNCTION_CALL => {
            let callee = word(inst, 3);
            !names_function(kinds, callee) || kinds.type_of(callee) == word(inst, 1)
        }
        _ => true,
    }
}

/// Whether an OpReturn stands in a function whose result type is void, and an OpReturnValue in another one, with a
/// value of that type. Every other instruction passes.
#[tactic(auto, unfolding(crate::specs::Contexts::return_fits))]
pub fn return_fits(kinds: &Kinds, result_type: u32, inst: &View) -> bool
    ensures { result ≡ contexts.return_fits kinds.now result_type (seen inst.now) }
{
    match inst.opcode() {
        op::RETURN => kinds.is_void(result_type),
        op::RETURN_VALUE => {
            !kinds.is_void(result_type) && is_value_of(kinds, result_type, word(inst, 1))
        }
        _ => true,
    }
}

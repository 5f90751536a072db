ghost use Rattle.std.specs.Prelude.{◌≡◌};
ghost use Rattle.spv_module.specs.View.{seen};
ghost use Rattle.spv_signatures.specs.Functions as functions;

use crate::signatures::Signatures;
use spv_ids::word;
use spv_module::View;
use spv_opcodes::op;
use spv_typing::Kinds;

/// Whether the id is a function type.
pub fn is_function_type(kinds: &Kinds, t: u32) -> bool
    ensures { result ≡ functions.is_function_type kinds.now t }
{
    kinds.definitions().kind(t) == op::TYPE_FUNCTION
}

/// The return type of a function type. Of what is none, some word or 0; and so below.
pub fn return_type(kinds: &Kinds, t: u32) -> u32
    ensures { result ≡ functions.return_type kinds.now t }
{
    kinds.definitions().word(t, 2)
}

/// The types of the parameters of a function type.
pub fn parameter_types<'a>(kinds: &Kinds<'a>, t: u32) -> &'a [u32]
    ensures { result.now ≡ functions.parameter_types kinds.now t }
{
    kinds.definitions().words(t, 3)
}

/// Whether the id is a function.
pub fn names_function(kinds: &Kinds, id: u32) -> bool
    ensures { result ≡ functions.names_function kinds.now id }
{
    kinds.definitions().kind(id) == op::FUNCTION
}

/// Whether the type of a function is a function type that has as many parameter types as the function has parameters.
/// Every other instruction passes.
#[tactic(auto, unfolding(crate::specs::Functions::function_fits))]
pub fn function_fits(signatures: &Signatures, inst: &View) -> bool
    ensures { result ≡ functions.function_fits signatures.now (seen inst.now) }
{
    if inst.opcode() != op::FUNCTION {
        return true;
    }
    let kinds = signatures.tables().kinds();
    let t = word(inst, 4);
    is_function_type(kinds, t)
        && parameter_types(kinds, t).len() == signatures.parameters(word(inst, 2)).len()
}

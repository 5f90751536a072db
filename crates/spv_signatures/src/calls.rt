ghost use Rattle.std.specs.Prelude.{◌≡◌};
ghost use Rattle.std.specs.List.{list_all, zip};
ghost use Rattle.spv_module.specs.View.{seen};
ghost use Rattle.spv_signatures.specs.Calls as calls;

use crate::functions::names_function;
use crate::parameters::Parameter;
use crate::signatures::Signatures;
use spv_ids::{word, words_from};
use spv_module::View;
use spv_opcodes::{decoration, op};
use spv_types::Tables;
use spv_values::is_value_of;

/// Whether the id has the decoration Volatile.
fn is_volatile(tables: &Tables, id: u32) -> bool
    ensures { result ≡ calls.is_volatile tables.now id }
{
    tables.decorations().has(id, decoration::VOLATILE)
}

/// Whether a pointer may be passed to a parameter, by their ids.
fn pointer_fits(tables: &Tables, parameter: u32, argument: u32) -> bool
    ensures { result ≡ calls.pointer_fits tables.now parameter argument }
{
    matches!(
        tables.kinds().definitions().kind(argument),
        op::VARIABLE | op::FUNCTION_PARAMETER
    ) && is_volatile(tables, parameter) == is_volatile(tables, argument)
}

/// Whether an argument may be passed to a parameter.
#[tactic(auto, unfolding(crate::specs::Calls::argument_fits))]
fn argument_fits(tables: &Tables, parameter: Parameter, argument: u32) -> bool
    ensures { result ≡ calls.argument_fits tables.now parameter argument }
{
    let kinds = tables.kinds();
    is_value_of(kinds, parameter.ty, argument)
        && (!kinds.is_pointer(parameter.ty) || pointer_fits(tables, parameter.id, argument))
}

/// Whether each of the arguments may be passed to the parameter at its place.
fn each_fits(tables: &Tables, parameters: &[Parameter], arguments: &[u32]) -> bool
    ensures { result ≡ list_all (λ pair. calls.argument_fits tables.now pair.0 pair.1) (zip parameters.now arguments.now) }
{
    parameters.iter().zip(arguments).all(|(parameter, argument)| argument_fits(
        tables, *parameter, *argument,
    ))
}

/// Whether arguments may be passed to parameters.
fn arguments_fit(tables: &Tables, parameters: &[Parameter], arguments: &[u32]) -> bool
    ensures { result ≡ calls.arguments_fit tables.now parameters.now arguments.now }
{
    parameters.len() == arguments.len() && each_fits(tables, parameters, arguments)
}

/// Whether a call names a function, and as many arguments as that has parameters, each a value of the parameter's
/// type; a pointer among them has to be a variable or a parameter, and Volatile exactly where the callee's parameter
/// is. Every other instruction passes.
#[tactic(auto, unfolding(crate::specs::Calls::call_fits))]
pub fn call_fits(signatures: &Signatures, inst: &View) -> bool
    ensures { result ≡ calls.call_fits signatures.now (seen inst.now) }
{
    if inst.opcode() != op::FUNCTION_CALL {
        return true;
    }
    let tables = signatures.tables();
    let callee = word(inst, 3);
    names_function(tables.kinds(), callee)
        && arguments_fit(tables, signatures.parameters(callee), words_from(inst, 4))
}

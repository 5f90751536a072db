ghost use Rattle.std.specs.Prelude.{◌≡◌};
ghost use Rattle.std.specs.List.{list_all};
ghost use Rattle.spv_module.specs.View.{seen};
ghost use Rattle.spv_typing.specs.Kinds.{is_closed};
ghost use Rattle.spv_typing.specs.Types as types;

use crate::kinds::Kinds;
use spv_ids::{word, words_from};
use spv_module::View;
use spv_opcodes::{op, storage_class};

/// Whether integers may have this width in bits, and this signedness.
fn int_fits(width: u32, signedness: u32) -> bool
    ensures { result ≡ types.int_fits width signedness }
{
    width == 32 && signedness <= 1
}

/// Whether vectors may have this number of such components.
fn vector_fits(kinds: &Kinds, component: u32, count: u32) -> bool
    ensures { result ≡ types.vector_fits kinds.now component count }
{
    (kinds.is_bool(component) || kinds.is_int(component)) && 2 <= count && count <= 4
}

/// Whether arrays may have such elements and this length.
fn array_fits(kinds: &Kinds, element: u32, length: u32) -> bool
    ensures { result ≡ types.array_fits kinds.now element length }
{
    kinds.is_closed(element) && kinds.is_constant(length) && kinds.is_int(kinds.type_of(length))
}

/// Whether the last member of structs may be of this type.
fn last_fits(kinds: &Kinds, member: u32) -> bool
    ensures { result ≡ types.last_fits kinds.now member }
{
    kinds.is_closed(member) || kinds.is_runtime_array(member)
}

/// Whether each type is one that a part may have.
fn all_closed(kinds: &Kinds, members: &[u32]) -> bool
    ensures { result ≡ list_all (is_closed kinds.now) members.now }
{
    members.iter().all(|member| kinds.is_closed(*member))
}

/// Whether structs may have such members.
fn struct_fits(kinds: &Kinds, members: &[u32]) -> bool
    ensures { result ≡ types.struct_fits kinds.now members.now }
{
    match members.split_last() {
        Some((last, others)) => all_closed(kinds, others) && last_fits(kinds, *last),
        None => false,
    }
}

/// Whether pointers may point to this type.
fn pointer_fits(kinds: &Kinds, target: u32) -> bool
    ensures { result ≡ types.pointer_fits kinds.now target }
{
    kinds.is_data(target) || kinds.is_runtime_array(target)
}

/// Whether functions may take pointers of this storage class.
fn class_fits(class: u32) -> bool
    ensures { result ≡ types.class_fits class }
{
    matches!(
        class,
        storage_class::FUNCTION | storage_class::PRIVATE | storage_class::WORKGROUP
    )
}

/// Whether functions may have a parameter of this type.
fn parameter_fits(kinds: &Kinds, t: u32) -> bool
    ensures { result ≡ types.parameter_fits kinds.now t }
{
    kinds.is_data(t) || (kinds.is_pointer(t) && class_fits(kinds.pointer_class(t)))
}

/// Whether functions may have such parameters.
fn parameters_fit(kinds: &Kinds, parameters: &[u32]) -> bool
    ensures { result ≡ list_all (types.parameter_fits kinds.now) parameters.now }
{
    parameters.iter().all(|t| parameter_fits(kinds, *t))
}

/// Whether functions may have this return type and such parameters.
fn function_fits(kinds: &Kinds, result_type: u32, parameters: &[u32]) -> bool
    ensures { result ≡ types.function_fits kinds.now result_type parameters.now }
{
    (kinds.is_void(result_type) || kinds.is_data(result_type)) && parameters_fit(kinds, parameters)
}

/// Whether a type is made of what it may be made of. Every instruction that makes no type fits. Whether a type
/// occurs twice is not asked.
#[tactic(auto, unfolding(crate::specs::Types::type_fits))]
pub fn type_fits(kinds: &Kinds, inst: &View) -> bool
    ensures { result ≡ types.type_fits kinds.now (seen inst.now) }
{
    match inst.opcode() {
        op::TYPE_INT => int_fits(word(inst, 2), word(inst, 3)),
        op::TYPE_VECTOR => vector_fits(kinds, word(inst, 2), word(inst, 3)),
        op::TYPE_ARRAY => array_fits(kinds, word(inst, 2), word(inst, 3)),
        op::TYPE_RUNTIME_ARRAY => kinds.is_closed(word(inst, 2)),
        op::TYPE_STRUCT => struct_fits(kinds, words_from(inst, 2)),
        op::TYPE_POINTER => pointer_fits(kinds, word(inst, 3)),
        op::TYPE_FUNCTION => function_fits(kinds, word(inst, 2), words_from(inst, 3)),
        _ => true,
    }
}

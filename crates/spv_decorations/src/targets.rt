ghost use Rattle.std.specs.Prelude.{◌≡◌};
ghost use Rattle.spv_module.specs.View.{seen};
ghost use Rattle.spv_typing.specs.Kinds.{is_one_of};
ghost use Rattle.spv_decorations.specs.Targets as targets;

use spv_ids::word;
use spv_module::View;
use spv_opcodes::{builtin, decoration, op, storage_class};
use spv_typing::Kinds;

/// Whether a decoration says how a memory is used.
fn is_of_memory(decoration: u32) -> bool
    ensures { result ≡ is_one_of targets.memory_decorations decoration }
{
    matches!(
        decoration,
        decoration::RESTRICT
            | decoration::ALIASED
            | decoration::VOLATILE
            | decoration::COHERENT
            | decoration::NON_WRITABLE
            | decoration::NON_READABLE
    )
}

/// Whether a target takes a built-in.
fn builtin_suits(kinds: &Kinds, target: u32, builtin: u32) -> bool
    ensures { result ≡ targets.builtin_suits kinds.now target builtin }
{
    if builtin == builtin::WORKGROUP_SIZE {
        kinds.is_constant(target) && kinds.is_triple(kinds.type_of(target))
    } else {
        kinds.is_variable_of(storage_class::INPUT, target)
    }
}

/// Whether a target takes a decoration with this literal by OpDecorate.
fn suits(kinds: &Kinds, target: u32, decoration: u32, literal: u32) -> bool
    ensures { result ≡ targets.suits kinds.now target decoration literal }
{
    match decoration {
        decoration::SPEC_ID => matches!(
            kinds.definitions().kind(target),
            op::SPEC_CONSTANT_TRUE | op::SPEC_CONSTANT_FALSE | op::SPEC_CONSTANT
        ),
        decoration::BLOCK => kinds.is_struct(target),
        decoration::ARRAY_STRIDE => kinds.is_array(target) || kinds.is_runtime_array(target),
        decoration::BUILTIN => builtin_suits(kinds, target, literal),
        decoration::BINDING | decoration::DESCRIPTOR_SET => {
            kinds.is_variable_of(storage_class::UNIFORM, target)
                || kinds.is_variable_of(storage_class::STORAGE_BUFFER, target)
        }
        _ => {
            is_of_memory(decoration)
                && matches!(
                    kinds.definitions().kind(target),
                    op::VARIABLE | op::FUNCTION_PARAMETER
                )
        }
    }
}

/// Whether a member of a struct takes a decoration by OpMemberDecorate.
fn suits_member(kinds: &Kinds, target: u32, member: u32, decoration: u32) -> bool
    ensures { result ≡ targets.suits_member kinds.now target member decoration }
{
    (decoration == decoration::OFFSET || is_of_memory(decoration))
        && kinds.is_struct(target)
        && (member as usize) < kinds.members(target).len()
}

/// Whether a decoration stands on a target that takes it. Every other instruction passes.
#[tactic(auto, unfolding(crate::specs::Targets::decoration_fits))]
pub fn decoration_fits(kinds: &Kinds, inst: &View) -> bool
    ensures { result ≡ targets.decoration_fits kinds.now (seen inst.now) }
{
    match inst.opcode() {
        op::DECORATE => suits(kinds, word(inst, 1), word(inst, 2), word(inst, 3)),
        op::MEMBER_DECORATE => suits_member(kinds, word(inst, 1), word(inst, 2), word(inst, 3)),
        _ => true,
    }
}

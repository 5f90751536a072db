// What an instruction says of a function by its id.

ghost use Rattle.std.specs.Prelude.{◌≡◌, nat_eq};
ghost use Rattle.std.specs.List.{list_any};
ghost use Rattle.spv_module.specs.View.{seen};
ghost use Rattle.spv_entries.specs.Sizes as sizes;
ghost use Rattle.spv_entries.specs.Functions as functions;

use spv_ids::{word, words_from};
use spv_module::View;
use spv_opcodes::{builtin, decoration, execution_mode, op};
use spv_typing::Kinds;
use spv_typing::shapes::has_shape;

/// The function of an entry point.
pub fn entry_function(inst: &View) -> Option<u32>
    ensures { result ≡ sizes.entry_function (seen inst.now) }
{
    if inst.opcode() == op::ENTRY_POINT {
        Some(word(inst, 2))
    } else {
        None
    }
}

/// The function that a call names.
pub fn called_function(inst: &View) -> Option<u32>
    ensures { result ≡ functions.called_function (seen inst.now) }
{
    if inst.opcode() == op::FUNCTION_CALL {
        Some(word(inst, 3))
    } else {
        None
    }
}

/// The function of a LocalSize.
pub fn literal_function(inst: &View) -> Option<u32>
    ensures { result ≡ sizes.literal_function (seen inst.now) }
{
    if inst.opcode() == op::EXECUTION_MODE && word(inst, 2) == execution_mode::LOCAL_SIZE {
        Some(word(inst, 1))
    } else {
        None
    }
}

/// The function of a LocalSizeId.
pub fn id_function(inst: &View) -> Option<u32>
    ensures { result ≡ sizes.id_function (seen inst.now) }
{
    if inst.opcode() == op::EXECUTION_MODE_ID && word(inst, 2) == execution_mode::LOCAL_SIZE_ID {
        Some(word(inst, 1))
    } else {
        None
    }
}

/// Whether an instruction is a mode.
pub fn is_mode(inst: &View) -> bool
    ensures { result ≡ sizes.is_mode (seen inst.now) }
{
    matches!(inst.opcode(), op::EXECUTION_MODE | op::EXECUTION_MODE_ID)
}

/// Whether the id is no integer constant.
fn is_no_size(kinds: &Kinds, id: u32) -> bool
    ensures { result ≡ sizes.is_no_size kinds.now id }
{
    !(kinds.is_constant(id) && has_shape(false, 1, kinds.shape(kinds.type_of(id))))
}

/// Whether one of the ids is no integer constant.
fn some_is_no_size(kinds: &Kinds, ids: &[u32]) -> bool
    ensures { result ≡ list_any (sizes.is_no_size kinds.now) ids.now }
{
    ids.iter().any(|id| is_no_size(kinds, *id))
}

/// Whether one of the sizes is 0.
fn some_is_zero(literals: &[u32]) -> bool
    ensures { result ≡ list_any (nat_eq 0) literals.now }
{
    literals.iter().any(|literal| *literal == 0)
}

/// Whether a literal size is 0, or an id is no integer constant.
fn sizes_unfit(kinds: &Kinds, inst: &View) -> bool
    ensures { result ≡ sizes.sizes_unfit kinds.now (seen inst.now) }
{
    if inst.opcode() == op::EXECUTION_MODE {
        some_is_zero(words_from(inst, 3))
    } else {
        some_is_no_size(kinds, words_from(inst, 3))
    }
}

/// The function of a LocalSize or LocalSizeId whose sizes do not fit.
pub fn unfit_function(kinds: &Kinds, inst: &View) -> Option<u32>
    ensures { result ≡ sizes.unfit_function kinds.now (seen inst.now) }
{
    let function = literal_function(inst).or(id_function(inst))?;
    if sizes_unfit(kinds, inst) {
        Some(function)
    } else {
        None
    }
}

/// Whether an instruction decorates a constant as the size of all workgroups.
pub fn sizes_all(kinds: &Kinds, inst: &View) -> bool
    ensures { result ≡ sizes.sizes_all kinds.now (seen inst.now) }
{
    inst.opcode() == op::DECORATE
        && word(inst, 2) == decoration::BUILTIN
        && word(inst, 3) == builtin::WORKGROUP_SIZE
        && kinds.is_constant(word(inst, 1))
}

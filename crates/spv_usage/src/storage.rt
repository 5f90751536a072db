ghost use Rattle.std.specs.Prelude.{◌≡◌};
ghost use Rattle.spv_module.specs.View.{seen};
ghost use Rattle.spv_typing.specs.Kinds.{is_one_of};
ghost use Rattle.spv_usage.specs.Storage as storage;

use crate::stages::Stage;
use spv_ids::{word, words_from};
use spv_module::View;
use spv_opcodes::{op, storage_class};
use spv_typing::Kinds;
use spv_values::pointer_type;

/// Whether the storage class is Function, and is that of the pointer type.
fn class_fits(kinds: &Kinds, t: u32, class: u32) -> bool
    ensures { result ≡ storage.class_fits kinds.now t class }
{
    class == storage_class::FUNCTION && kinds.is_pointer(t) && kinds.pointer_class(t) == class
}

/// Whether the type neither is a runtime array nor ends in one.
fn length_fits(kinds: &Kinds, target: u32) -> bool
    ensures { result ≡ storage.length_fits kinds.now target }
{
    !(kinds.is_runtime_array(target) || kinds.ends_open(target))
}

/// Whether an initialiser, if there is one, is a constant of the type.
fn initialiser_fits(kinds: &Kinds, target: u32, initialiser: &[u32]) -> bool
    ensures { result ≡ storage.initialiser_fits kinds.now target initialiser.now }
{
    match initialiser {
        [] => true,
        [id, ..] => kinds.has_type(target, *id),
    }
}

/// Whether a variable in a function, of a pointer type and a storage class, fits.
fn variable_fits(kinds: &Kinds, t: u32, class: u32, initialiser: &[u32]) -> bool
    ensures { result ≡ storage.variable_fits kinds.now t class initialiser.now }
{
    let target = kinds.pointee(t);
    class_fits(kinds, t, class)
        && length_fits(kinds, target)
        && initialiser_fits(kinds, target, initialiser)
}

/// The storage class of a pointer, by the names of `storage_class`. None where the id is no pointer.
fn class_of(kinds: &Kinds, id: u32) -> Option<u32>
    ensures { result ≡ storage.class_of kinds.now id }
{
    let t = pointer_type(kinds, id)?;
    Some(kinds.pointer_class(t))
}

/// Whether it may be stored to the pointer.
fn store_fits(kinds: &Kinds, pointer: u32) -> bool
    ensures { result ≡ storage.store_fits kinds.now pointer }
{
    !matches!(
        class_of(kinds, pointer),
        Some(storage_class::INPUT | storage_class::UNIFORM | storage_class::PUSH_CONSTANT)
    )
}

/// Whether atomics may work on the pointer.
fn atomic_fits(kinds: &Kinds, pointer: u32) -> bool
    ensures { result ≡ storage.atomic_fits kinds.now pointer }
{
    matches!(
        class_of(kinds, pointer),
        None | Some(storage_class::STORAGE_BUFFER | storage_class::WORKGROUP)
    )
}

/// Whether the pointer may be asked for the length of an array.
fn asked_fits(kinds: &Kinds, pointer: u32) -> bool
    ensures { result ≡ storage.asked_fits kinds.now pointer }
{
    matches!(
        class_of(kinds, pointer),
        None | Some(storage_class::STORAGE_BUFFER)
    )
}

/// Whether the opcode is that of an atomic that has a result.
pub fn is_atomic(opcode: u16) -> bool
    ensures { result ≡ is_one_of storage.atomics opcode }
{
    matches!(
        opcode,
        op::ATOMIC_LOAD
            | op::ATOMIC_EXCHANGE
            | op::ATOMIC_COMPARE_EXCHANGE
            | op::ATOMIC_I_INCREMENT
            | op::ATOMIC_I_DECREMENT
            | op::ATOMIC_I_ADD
            | op::ATOMIC_I_SUB
            | op::ATOMIC_S_MIN
            | op::ATOMIC_U_MIN
            | op::ATOMIC_S_MAX
            | op::ATOMIC_U_MAX
            | op::ATOMIC_AND
            | op::ATOMIC_OR
            | op::ATOMIC_XOR
    )
}

/// Whether a variable in a function stands at the head of its first block and is as it should be, and whether a
/// store, an atomic or OpArrayLength works on a storage class that it may. Every other instruction passes, and so does
/// a variable outside functions.
#[tactic(auto, unfolding(crate::specs::Storage::storage_fits))]
pub fn storage_fits(kinds: &Kinds, stage: Stage, inst: &View) -> bool
    ensures { result ≡ storage.storage_fits kinds.now stage (seen inst.now) }
{
    match inst.opcode() {
        op::VARIABLE => match stage {
            Stage::Outside => true,
            Stage::Opening => variable_fits(
                kinds,
                word(inst, 1),
                word(inst, 3),
                words_from(inst, 4),
            ),
            Stage::Head | Stage::Further => false,
        },
        op::STORE => store_fits(kinds, word(inst, 1)),
        op::ARRAY_LENGTH => asked_fits(kinds, word(inst, 3)),
        op::ATOMIC_STORE => atomic_fits(kinds, word(inst, 1)),
        opcode if is_atomic(opcode) => atomic_fits(kinds, word(inst, 3)),
        _ => true,
    }
}

ghost use Rattle.std.specs.Prelude.{◌≡◌};
ghost use Rattle.spv_meaning.specs.Meanings.{is_laid as laid};
ghost use Rattle.spv_module.specs.View.{seen};
ghost use Rattle.spv_decorations.specs.Globals as globals;

use crate::decorations::Decorations;
use spv_ids::{word, words_from};
use spv_module::View;
use spv_opcodes::{builtin, decoration, op, storage_class};
use spv_typing::Kinds;

/// Whether the storage class is not Function, and is that of the pointer type.
fn class_fits(kinds: &Kinds, t: u32, class: u32) -> bool
    ensures { result ≡ globals.class_fits kinds.now t class }
{
    class != storage_class::FUNCTION && kinds.is_pointer(t) && kinds.pointer_class(t) == class
}

/// Whether there is a built-in, and the type suits it.
fn builtin_fits(kinds: &Kinds, target: u32, builtin: Option<u32>) -> bool
    ensures { result ≡ globals.builtin_fits kinds.now target builtin }
{
    match builtin {
        None => false,
        Some(builtin::LOCAL_INVOCATION_INDEX) => kinds.is_int(target),
        Some(_) => kinds.is_triple(target),
    }
}

/// Whether a variable of this type is a built-in, if it is an Input variable.
fn input_fits(kinds: &Kinds, decorations: &Decorations, class: u32, id: u32, target: u32) -> bool
    requires { decorations.now ≡ kinds.now }
    ensures { result ≡ globals.input_fits kinds.now class id target }
{
    class != storage_class::INPUT
        || builtin_fits(kinds, target, decorations.literal(id, decoration::BUILTIN))
}

/// Whether offsets and strides tell the positions in a storage class.
fn is_laid(class: u32) -> bool
    ensures { result ≡ laid class }
{
    matches!(
        class,
        storage_class::STORAGE_BUFFER | storage_class::UNIFORM | storage_class::PUSH_CONSTANT
    )
}

/// Whether the type is a struct with Block, if the storage class wants one.
fn block_fits(kinds: &Kinds, decorations: &Decorations, class: u32, target: u32) -> bool
    requires { decorations.now ≡ kinds.now }
    ensures { result ≡ globals.block_fits kinds.now class target }
{
    !is_laid(class) || kinds.is_struct(target) && decorations.has(target, decoration::BLOCK)
}

/// Whether the type is and has no runtime array, unless the storage class is StorageBuffer.
fn length_fits(kinds: &Kinds, class: u32, target: u32) -> bool
    ensures { result ≡ globals.length_fits kinds.now class target }
{
    class == storage_class::STORAGE_BUFFER
        || !(kinds.is_runtime_array(target) || kinds.ends_open(target))
}

/// Whether an initialiser, if there is one, stands in Private and is a constant of the type.
fn initialiser_fits(kinds: &Kinds, class: u32, target: u32, initialiser: &[u32]) -> bool
    ensures { result ≡ globals.initialiser_fits kinds.now class target initialiser.now }
{
    match initialiser {
        [] => true,
        [id, ..] => class == storage_class::PRIVATE && kinds.has_type(target, *id),
    }
}

/// Whether a variable outside functions, of a pointer type, fits.
fn variable_fits(
    kinds: &Kinds,
    decorations: &Decorations,
    t: u32,
    id: u32,
    class: u32,
    initialiser: &[u32],
) -> bool
    requires { decorations.now ≡ kinds.now }
    ensures { result ≡ globals.variable_fits kinds.now t id class initialiser.now }
{
    let target = kinds.pointee(t);
    class_fits(kinds, t, class)
        && input_fits(kinds, decorations, class, id, target)
        && block_fits(kinds, decorations, class, target)
        && length_fits(kinds, class, target)
        && initialiser_fits(kinds, class, target, initialiser)
}

/// Whether a variable outside functions fits its storage class: in its pointer type, in its built-in or block,
/// and in its initialiser. `begun` says that a function has begun before the instruction. Every other
/// instruction passes.
#[tactic(auto, unfolding(crate::specs::Globals::global_fits))]
pub fn global_fits(kinds: &Kinds, decorations: &Decorations, begun: bool, inst: &View) -> bool
    requires { decorations.now ≡ kinds.now }
    ensures { result ≡ globals.global_fits kinds.now begun (seen inst.now) }
{
    if begun || inst.opcode() != op::VARIABLE {
        return true;
    }
    variable_fits(
        kinds,
        decorations,
        word(inst, 1),
        word(inst, 2),
        word(inst, 3),
        words_from(inst, 4),
    )
}

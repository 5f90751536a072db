ghost use Rattle.std.specs.Prelude.{◌≡◌};
ghost use Rattle.spv_module.specs.View.{seen};
ghost use Rattle.spv_values.specs.Values as values;

use spv_module::View;
use spv_opcodes::op;
use spv_typing::shapes::has_shape;
use spv_typing::{Kinds, Shape};

/// The id of the type of the value that an instruction gives. None where it gives no value, and at OpFunction.
fn given_type(inst: &View) -> Option<u32>
    ensures { result ≡ values.given_type (seen inst.now) }
{
    if inst.opcode() == op::FUNCTION {
        return None;
    }
    inst.result_type().map(|t| t.number())
}

/// The id of a value's type. None where the id is no value: where it is a type, a label, a string, an import or
/// a function, or where nothing defines it.
pub fn value_type(kinds: &Kinds, id: u32) -> Option<u32>
    ensures { result ≡ values.value_type kinds.now id }
{
    match kinds.definitions().find(id) {
        Some(inst) => given_type(&inst),
        None => None,
    }
}

/// What a value has component by component. None where the id is no value, and where its type is no scalar and
/// no vector of scalars.
pub fn value_shape(kinds: &Kinds, id: u32) -> Option<Shape>
    ensures { result ≡ values.value_shape kinds.now id }
{
    match value_type(kinds, id) {
        Some(t) => kinds.shape(t),
        None => None,
    }
}

/// Whether the id is a value.
pub fn is_value(kinds: &Kinds, id: u32) -> bool
    ensures { result ≡ values.is_value kinds.now id }
{
    value_type(kinds, id).is_some()
}

/// Whether the id is a value of the type `t`.
pub fn is_value_of(kinds: &Kinds, t: u32, id: u32) -> bool
    ensures { result ≡ values.is_value_of kinds.now t id }
{
    match value_type(kinds, id) {
        Some(of) => of == t,
        None => false,
    }
}

/// Whether the id is an integer, where the count is 1, or a vector of so many integers.
pub fn is_ints(kinds: &Kinds, count: u32, id: u32) -> bool
    ensures { result ≡ values.is_ints kinds.now count id }
{
    has_shape(false, count, value_shape(kinds, id))
}

/// Whether the id is a boolean, where the count is 1, or a vector of so many booleans.
pub fn is_bools(kinds: &Kinds, count: u32, id: u32) -> bool
    ensures { result ≡ values.is_bools kinds.now count id }
{
    has_shape(true, count, value_shape(kinds, id))
}

/// The id of the type of a value that is a pointer. None where the id is no such value.
pub fn pointer_type(kinds: &Kinds, id: u32) -> Option<u32>
    ensures { result ≡ values.pointer_type kinds.now id }
{
    let t = value_type(kinds, id)?;
    if kinds.is_pointer(t) { Some(t) } else { None }
}

/// Whether the id is a value that is a pointer.
pub fn is_pointer_value(kinds: &Kinds, id: u32) -> bool
    ensures { result ≡ values.is_pointer_value kinds.now id }
{
    pointer_type(kinds, id).is_some()
}

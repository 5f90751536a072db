ghost use Rattle.std.specs.Prelude.{◌≡◌};
ghost use Rattle.std.specs.List.{list_all};
ghost use Rattle.spv_module.specs.View.{seen};
ghost use Rattle.spv_typing.specs.Kinds.{is_one_of};
ghost use Rattle.spv_values.specs.Values as values;
ghost use Rattle.spv_composites.specs.Memory as memory;

use crate::parts::leads_to;
use spv_ids::{word, words_from};
use spv_module::View;
use spv_opcodes::op;
use spv_typing::Kinds;
use spv_values::{is_ints, is_value_of, pointer_type};

/// The id of the type that a value points to. None where the id is no value that is a pointer.
fn target_of(kinds: &Kinds, id: u32) -> Option<u32>
    ensures { result ≡ memory.target_of kinds.now id }
{
    match pointer_type(kinds, id) {
        Some(t) => Some(kinds.pointee(t)),
        None => None,
    }
}

/// Whether the type is one of runtime arrays, or of structs that end in one.
fn has_runtime_array(kinds: &Kinds, t: u32) -> bool
    ensures { result ≡ memory.has_runtime_array kinds.now t }
{
    kinds.is_runtime_array(t) || kinds.ends_open(t)
}

/// Whether a value of a type may be loaded through a pointer.
fn loads(kinds: &Kinds, t: u32, pointer: u32) -> bool
    ensures { result ≡ memory.loads kinds.now t pointer }
{
    leads_to(t, target_of(kinds, pointer)) && !has_runtime_array(kinds, t)
}

/// Whether a value may be stored through a pointer.
fn stores(kinds: &Kinds, pointer: u32, value: u32) -> bool
    ensures { result ≡ memory.stores kinds.now pointer value }
{
    match target_of(kinds, pointer) {
        Some(t) => is_value_of(kinds, t, value),
        None => false,
    }
}

/// The type of the member of structs that an index picks. None where it is no OpConstant below the number of members.
fn member_picked(kinds: &Kinds, t: u32, index: u32) -> Option<u32>
    ensures { result ≡ memory.member_picked kinds.now t index }
{
    let definitions = kinds.definitions();
    if definitions.kind(index) == op::CONSTANT {
        kinds
            .members(t)
            .get(definitions.word(index, 3) as usize)
            .copied()
    } else {
        None
    }
}

/// The type of the part of a type that an integer leads to. None where it leads to none.
fn part_picked(kinds: &Kinds, t: u32, index: u32) -> Option<u32>
    ensures { result ≡ memory.part_picked kinds.now t index }
{
    if kinds.is_struct(t) {
        member_picked(kinds, t, index)
    } else if kinds.is_array(t) || kinds.is_runtime_array(t) {
        Some(kinds.element(t))
    } else if kinds.is_vector(t) {
        Some(kinds.component(t))
    } else {
        None
    }
}

/// The type of the part of a type that an index leads to. None where it is no integer or leads to none.
fn part_indexed(kinds: &Kinds, t: u32, index: u32) -> Option<u32>
    ensures { result ≡ memory.part_indexed kinds.now t index }
{
    if is_ints(kinds, 1, index) {
        part_picked(kinds, t, index)
    } else {
        None
    }
}

/// The type that indexes lead to from a type. None where they lead to none.
fn chain_along(kinds: &Kinds, indexes: &[u32], t: u32) -> Option<u32>
    ensures { result ≡ memory.chain_along kinds.now indexes.now t }
{
    let mut part = t;
    'indexes: for index in indexes {
        part = part_indexed(kinds, part, *index)?;
    }
    Some(part)
}

/// The type that indexes lead to from what a value points to. None where they lead to none.
fn chain_target(kinds: &Kinds, base: u32, indexes: &[u32]) -> Option<u32>
    ensures { result ≡ memory.chain_target kinds.now base indexes.now }
{
    match target_of(kinds, base) {
        Some(t) => chain_along(kinds, indexes, t),
        None => None,
    }
}

/// Whether a value is a pointer of a storage class.
fn has_class(kinds: &Kinds, class: u32, base: u32) -> bool
    ensures { result ≡ memory.has_class kinds.now class base }
{
    match pointer_type(kinds, base) {
        Some(t) => kinds.pointer_class(t) == class,
        None => false,
    }
}

/// Whether a type is one of pointers to what indexes lead to.
fn is_chain_to(kinds: &Kinds, t: u32, base: u32, indexes: &[u32]) -> bool
    ensures { result ≡ memory.is_chain_to kinds.now t base indexes.now }
{
    kinds.is_pointer(t)
        && has_class(kinds, kinds.pointer_class(t), base)
        && leads_to(kinds.pointee(t), chain_target(kinds, base, indexes))
}

/// Whether a value points to a struct whose last member is a runtime array and has this number.
fn measures(kinds: &Kinds, pointer: u32, member: u32) -> bool
    ensures { result ≡ memory.measures kinds.now pointer member }
{
    match target_of(kinds, pointer) {
        Some(t) => kinds.ends_open(t) && member as usize + 1 == kinds.members(t).len(),
        None => false,
    }
}

/// Whether a type is one of unsigned integers.
fn is_unsigned(kinds: &Kinds, t: u32) -> bool
    ensures { result ≡ memory.is_unsigned kinds.now t }
{
    kinds.is_int(t) && kinds.definitions().word(t, 3) == 0
}

/// Whether each is a value of a type.
fn all_of_type(kinds: &Kinds, t: u32, ids: &[u32]) -> bool
    ensures { result ≡ list_all (values.is_value_of kinds.now t) ids.now }
{
    ids.iter().all(|id| is_value_of(kinds, t, *id))
}

/// Whether an atomic may act on what a value points to, with these values.
fn acts(kinds: &Kinds, pointer: u32, values: &[u32]) -> bool
    ensures { result ≡ memory.acts kinds.now pointer values.now }
{
    match target_of(kinds, pointer) {
        Some(t) => kinds.is_int(t) && all_of_type(kinds, t, values),
        None => false,
    }
}

/// Whether it is an atomic with a result and one word of semantics.
fn is_atomic(opcode: u16) -> bool
    ensures { result ≡ is_one_of memory.atomics opcode }
{
    matches!(
        opcode,
        op::ATOMIC_LOAD
            | op::ATOMIC_EXCHANGE
            | op::ATOMIC_I_INCREMENT
            | op::ATOMIC_I_DECREMENT
            | op::ATOMIC_I_ADD
            | op::ATOMIC_I_SUB
            | op::ATOMIC_S_MIN
            | op::ATOMIC_U_MIN
            | op::ATOMIC_S_MAX
            | op::ATOMIC_U_MAX
            | op::ATOMIC_AND
            | op::ATOMIC_OR
            | op::ATOMIC_XOR
    )
}

/// Whether the operands of a load, a store or a pointer into another's target fit (501). Every other instruction passes.
#[tactic(auto, unfolding(crate::specs::Memory::memory_operands_fit))]
pub fn memory_operands_fit(kinds: &Kinds, inst: &View) -> bool
    ensures { result ≡ memory.memory_operands_fit kinds.now (seen inst.now) }
{
    match inst.opcode() {
        op::LOAD => loads(kinds, word(inst, 1), word(inst, 3)),
        op::STORE => stores(kinds, word(inst, 1), word(inst, 2)),
        op::ACCESS_CHAIN | op::IN_BOUNDS_ACCESS_CHAIN => {
            chain_target(kinds, word(inst, 3), words_from(inst, 4)).is_some()
        }
        op::ARRAY_LENGTH => measures(kinds, word(inst, 3), word(inst, 4)),
        _ => true,
    }
}

/// Whether the operands of an atomic fit (501). Every other instruction passes.
#[tactic(auto, unfolding(crate::specs::Memory::atomic_operands_fit))]
pub fn atomic_operands_fit(kinds: &Kinds, inst: &View) -> bool
    ensures { result ≡ memory.atomic_operands_fit kinds.now (seen inst.now) }
{
    let opcode = inst.opcode();
    if is_atomic(opcode) {
        acts(kinds, word(inst, 3), words_from(inst, 6))
    } else if opcode == op::ATOMIC_COMPARE_EXCHANGE {
        acts(kinds, word(inst, 3), words_from(inst, 7))
    } else if opcode == op::ATOMIC_STORE {
        acts(kinds, word(inst, 1), words_from(inst, 4))
    } else {
        true
    }
}

/// Whether the result of a load or of a pointer into another's target fits (502). Every other instruction passes.
#[tactic(auto, unfolding(crate::specs::Memory::memory_result_fits))]
pub fn memory_result_fits(kinds: &Kinds, inst: &View) -> bool
    ensures { result ≡ memory.memory_result_fits kinds.now (seen inst.now) }
{
    match inst.opcode() {
        op::LOAD => kinds.is_closed(word(inst, 1)),
        op::ACCESS_CHAIN | op::IN_BOUNDS_ACCESS_CHAIN => {
            is_chain_to(kinds, word(inst, 1), word(inst, 3), words_from(inst, 4))
        }
        op::ARRAY_LENGTH => is_unsigned(kinds, word(inst, 1)),
        _ => true,
    }
}

/// Whether the result of an atomic fits (502). Every other instruction passes.
#[tactic(auto, unfolding(crate::specs::Memory::atomic_result_fits))]
pub fn atomic_result_fits(kinds: &Kinds, inst: &View) -> bool
    ensures { result ≡ memory.atomic_result_fits kinds.now (seen inst.now) }
{
    let opcode = inst.opcode();
    if opcode == op::ATOMIC_COMPARE_EXCHANGE || is_atomic(opcode) {
        leads_to(word(inst, 1), target_of(kinds, word(inst, 3)))
    } else {
        true
    }
}

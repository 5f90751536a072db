ghost use Rattle.std.specs.Prelude.{◌≡◌};
ghost use Rattle.std.specs.Option.{option_and_then};
ghost use Rattle.spv_grammar.specs.Roles.{is_defined_id};
ghost use Rattle.spv_ids.specs.Ids.{definition};
ghost use Rattle.spv_module.specs.Instruction.{word_with};
ghost use Rattle.spv_module.specs.View.{seen};
ghost use Rattle.spv_usage.specs.Orderings as orderings;

use crate::storage::is_atomic;
use spv_base::Id;
use spv_ids::word;
use spv_module::View;
use spv_opcodes::{op, scope};
use spv_types::Tables;
use spv_values::is_ints;

/// The bits that semantics may have.
const ADMITTED: u32 = 0xFDE;

/// The bits of which semantics may have one: Acquire 2, Release 4, AcquireRelease 8, SequentiallyConsistent 16.
const ORDERS: u32 = 0x1E;

/// The id, as the instruction that defines it has it. None where none does.
fn defined(tables: &Tables, id: u32) -> Option<Id>
    ensures { result ≡ option_and_then (word_with is_defined_id) (definition tables.now id) }
{
    tables.kinds().definitions().find(id)?.result()
}

/// The word of a Known constant that is an integer. None for everything else.
fn known_integer(tables: &Tables, id: u32) -> Option<u32>
    ensures { result ≡ orderings.known_integer tables.now id }
{
    if !is_ints(tables.kinds(), 1, id) {
        return None;
    }
    match defined(tables, id) {
        Some(known) => tables.word(known, 0),
        None => None,
    }
}

fn is_execution_scope(value: u32) -> bool
    ensures { result ≡ orderings.is_execution_scope value }
{
    value == scope::WORKGROUP
}

fn is_memory_scope(value: u32) -> bool
    ensures { result ≡ orderings.is_memory_scope value }
{
    matches!(value, scope::DEVICE | scope::WORKGROUP | scope::INVOCATION)
}

fn are_semantics(value: u32) -> bool
    ensures { result ≡ orderings.are_semantics value }
{
    value & ADMITTED == value && matches!(value & ORDERS, 0 | 2 | 4 | 8 | 16)
}

/// Whether the id is an execution scope.
fn execution_fits(tables: &Tables, id: u32) -> bool
    ensures { result ≡ orderings.execution_fits tables.now id }
{
    match known_integer(tables, id) {
        Some(value) => is_execution_scope(value),
        None => false,
    }
}

/// Whether the id is a memory scope.
fn scope_fits(tables: &Tables, id: u32) -> bool
    ensures { result ≡ orderings.scope_fits tables.now id }
{
    match known_integer(tables, id) {
        Some(value) => is_memory_scope(value),
        None => false,
    }
}

/// Whether the id is memory semantics.
fn semantics_fit(tables: &Tables, id: u32) -> bool
    ensures { result ≡ orderings.semantics_fit tables.now id }
{
    match known_integer(tables, id) {
        Some(value) => are_semantics(value),
        None => false,
    }
}

/// Whether the ids are a memory scope and memory semantics.
fn access_fits(tables: &Tables, scope: u32, semantics: u32) -> bool
    ensures { result ≡ orderings.access_fits tables.now scope semantics }
{
    scope_fits(tables, scope) && semantics_fit(tables, semantics)
}

/// Whether the scopes and memory semantics of a barrier or an atomic are Known integer constants that they may be.
/// Every other instruction passes.
#[tactic(auto, unfolding(crate::specs::Orderings::ordering_fits))]
pub fn ordering_fits(tables: &Tables, inst: &View) -> bool
    ensures { result ≡ orderings.ordering_fits tables.now (seen inst.now) }
{
    match inst.opcode() {
        op::CONTROL_BARRIER => {
            execution_fits(tables, word(inst, 1))
                && access_fits(tables, word(inst, 2), word(inst, 3))
        }
        op::MEMORY_BARRIER => access_fits(tables, word(inst, 1), word(inst, 2)),
        op::ATOMIC_STORE => access_fits(tables, word(inst, 2), word(inst, 3)),
        op::ATOMIC_COMPARE_EXCHANGE => {
            access_fits(tables, word(inst, 4), word(inst, 5))
                && semantics_fit(tables, word(inst, 6))
        }
        opcode if is_atomic(opcode) => access_fits(tables, word(inst, 4), word(inst, 5)),
        _ => true,
    }
}

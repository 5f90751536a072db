ghost use Rattle.std.specs.Prelude.{◌≡◌, ◌+◌};
ghost use Rattle.spv_module.specs.View.{seen};
ghost use Rattle.spv_typing.specs.Kinds.{component_count};
ghost use Rattle.spv_composites.specs.Vectors as vectors;

use crate::parts::all_pick;
use spv_ids::{word, words_from};
use spv_module::View;
use spv_opcodes::op;
use spv_typing::Kinds;
use spv_values::{is_ints, is_value, is_value_of, value_type};

/// The id of the type of a value that is a vector. None where the id is no such value.
fn vector_type(kinds: &Kinds, id: u32) -> Option<u32>
    ensures { result ≡ vectors.vector_type kinds.now id }
{
    let t = value_type(kinds, id)?;
    if kinds.is_vector(t) { Some(t) } else { None }
}

/// Whether a component is taken of a vector by an integer.
fn takes_component(kinds: &Kinds, vector: u32, index: u32) -> bool
    ensures { result ≡ vectors.takes_component kinds.now vector index }
{
    vector_type(kinds, vector).is_some() && is_ints(kinds, 1, index)
}

/// Whether a type is that of a vector's components.
fn is_component_of(kinds: &Kinds, vector: u32, t: u32) -> bool
    ensures { result ≡ vectors.is_component_of kinds.now vector t }
{
    match vector_type(kinds, vector) {
        Some(of) => kinds.component(of) == t,
        None => false,
    }
}

/// Whether the id is a value that may be a component of a result.
fn is_component_for(kinds: &Kinds, t: u32, id: u32) -> bool
    ensures { result ≡ vectors.is_component_for kinds.now t id }
{
    if kinds.is_vector(t) {
        is_value_of(kinds, kinds.component(t), id)
    } else {
        is_value(kinds, id)
    }
}

/// Whether a component is set in a vector by an integer.
fn sets_component(kinds: &Kinds, t: u32, vector: u32, component: u32, index: u32) -> bool
    ensures { result ≡ vectors.sets_component kinds.now t vector component index }
{
    is_value_of(kinds, t, vector)
        && is_component_for(kinds, t, component)
        && is_ints(kinds, 1, index)
}

/// Whether the result of a shuffle may have so many of such components.
fn suits_shuffle(kinds: &Kinds, t: u32, component: u32, count: usize) -> bool
    ensures { result ≡ vectors.suits_shuffle kinds.now t component count }
{
    !kinds.is_vector(t)
        || (kinds.component(t) == component && kinds.component_count(t) as usize == count)
}

/// How many components two types of vectors have.
fn components_of(kinds: &Kinds, first: u32, second: u32) -> u64
    ensures { result ≡ component_count kinds.now first + component_count kinds.now second }
{
    u64::from(kinds.component_count(first)) + u64::from(kinds.component_count(second))
}

/// Whether vectors of two types may be shuffled to a result.
fn shuffles_types(kinds: &Kinds, t: u32, first: u32, second: u32, literals: &[u32]) -> bool
    ensures { result ≡ vectors.shuffles_types kinds.now t first second literals.now }
{
    kinds.component(first) == kinds.component(second)
        && all_pick(components_of(kinds, first, second), literals)
        && suits_shuffle(kinds, t, kinds.component(first), literals.len())
}

/// Whether two vectors may be shuffled to a result.
fn shuffles(kinds: &Kinds, t: u32, first: u32, second: u32, literals: &[u32]) -> bool
    ensures { result ≡ vectors.shuffles kinds.now t first second literals.now }
{
    match (vector_type(kinds, first), vector_type(kinds, second)) {
        (Some(u), Some(w)) => shuffles_types(kinds, t, u, w, literals),
        _ => false,
    }
}

/// Whether the operands of an instruction on components of vectors fit (501). Every other instruction passes.
#[tactic(auto, unfolding(crate::specs::Vectors::vector_operands_fit))]
pub fn vector_operands_fit(kinds: &Kinds, inst: &View) -> bool
    ensures { result ≡ vectors.vector_operands_fit kinds.now (seen inst.now) }
{
    match inst.opcode() {
        op::VECTOR_EXTRACT_DYNAMIC => takes_component(kinds, word(inst, 3), word(inst, 4)),
        op::VECTOR_INSERT_DYNAMIC => {
            sets_component(
                kinds,
                word(inst, 1),
                word(inst, 3),
                word(inst, 4),
                word(inst, 5),
            )
        }
        op::VECTOR_SHUFFLE => {
            shuffles(
                kinds,
                word(inst, 1),
                word(inst, 3),
                word(inst, 4),
                words_from(inst, 5),
            )
        }
        _ => true,
    }
}

/// Whether the result of an instruction on components of vectors fits (502). Every other instruction passes.
#[tactic(auto, unfolding(crate::specs::Vectors::vector_result_fits))]
pub fn vector_result_fits(kinds: &Kinds, inst: &View) -> bool
    ensures { result ≡ vectors.vector_result_fits kinds.now (seen inst.now) }
{
    match inst.opcode() {
        op::VECTOR_EXTRACT_DYNAMIC => is_component_of(kinds, word(inst, 3), word(inst, 1)),
        op::VECTOR_INSERT_DYNAMIC | op::VECTOR_SHUFFLE => kinds.is_vector(word(inst, 1)),
        _ => true,
    }
}

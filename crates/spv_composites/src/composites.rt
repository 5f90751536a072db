ghost use Rattle.std.specs.Prelude.{◌≡◌};
ghost use Rattle.std.specs.List.{list_all, zip};
ghost use Rattle.spv_module.specs.View.{seen};
ghost use Rattle.spv_typing.specs.Operations as operations;
ghost use Rattle.spv_values.specs.Values as values;
ghost use Rattle.spv_composites.specs.Composites as composites;

use crate::forms::Forms;
use crate::lengths::has_known_length;
use crate::parts::{leads_to, literals_lead, part_along};
use spv_ids::{word, words_from};
use spv_module::View;
use spv_opcodes::op;
use spv_types::Tables;
use spv_typing::Kinds;
use spv_values::{is_value, is_value_of, value_type};

/// How many components a type gives to a vector of such components. None where it gives none.
fn components_in(kinds: &Kinds, component: u32, t: u32) -> Option<u32>
    ensures { result ≡ composites.components_in kinds.now component t }
{
    if t == component {
        Some(1)
    } else if kinds.is_vector(t) && kinds.component(t) == component {
        Some(kinds.component_count(t))
    } else {
        None
    }
}

/// How many components a value gives to a vector of such components. None where it gives none.
fn components_of_value(kinds: &Kinds, component: u32, id: u32) -> Option<u32>
    ensures { result ≡ composites.components_of_value kinds.now component id }
{
    match value_type(kinds, id) {
        Some(t) => components_in(kinds, component, t),
        None => None,
    }
}

/// Whether values give so many components together.
fn give_components(kinds: &Kinds, component: u32, count: u32, ids: &[u32]) -> bool
    ensures { result ≡ operations.leads_to count (composites.components_of kinds.now component ids.now) }
{
    let mut left = count;
    'values: for id in ids {
        match components_of_value(kinds, component, *id) {
            Some(n) if n <= left => left -= n,
            _ => return false,
        }
    }
    left == 0
}

/// Whether two or more values make up a vector.
fn make_vector(kinds: &Kinds, t: u32, ids: &[u32]) -> bool
    ensures { result ≡ composites.make_vector kinds.now t ids.now }
{
    2 <= ids.len() && give_components(kinds, kinds.component(t), kinds.component_count(t), ids)
}

/// Whether each is a value of a type.
fn all_of_type(kinds: &Kinds, t: u32, ids: &[u32]) -> bool
    ensures { result ≡ list_all (values.is_value_of kinds.now t) ids.now }
{
    ids.iter().all(|id| is_value_of(kinds, t, *id))
}

/// Whether each is a value.
fn all_values(kinds: &Kinds, ids: &[u32]) -> bool
    ensures { result ≡ list_all (values.is_value kinds.now) ids.now }
{
    ids.iter().all(|id| is_value(kinds, *id))
}

/// Whether values are an array's elements.
fn make_array(tables: &Tables, t: u32, ids: &[u32]) -> bool
    ensures { result ≡ composites.make_array tables.now t ids.now }
{
    let kinds = tables.kinds();
    has_known_length(tables, kinds.length_id(t), ids.len())
        && all_of_type(kinds, kinds.element(t), ids)
}

/// Whether each is a value of the type at its place.
fn each_of(kinds: &Kinds, types: &[u32], ids: &[u32]) -> bool
    ensures { result ≡ list_all (λ pair. values.is_value_of kinds.now pair.0 pair.1) (zip types.now ids.now) }
{
    types
        .iter()
        .zip(ids)
        .all(|(t, id)| is_value_of(kinds, *t, *id))
}

/// Whether values are a struct's members.
fn make_struct(kinds: &Kinds, t: u32, ids: &[u32]) -> bool
    ensures { result ≡ composites.make_struct kinds.now t ids.now }
{
    let members = kinds.members(t);
    members.len() == ids.len() && each_of(kinds, members, ids)
}

/// Whether the type is one of structs without a runtime array.
fn is_closed_struct(kinds: &Kinds, t: u32) -> bool
    ensures { result ≡ composites.is_closed_struct kinds.now t }
{
    kinds.is_struct(t) && !kinds.ends_open(t)
}

/// Whether the type is one of vectors, arrays or structs, of which there are values.
fn is_composite(kinds: &Kinds, t: u32) -> bool
    ensures { result ≡ composites.is_composite kinds.now t }
{
    kinds.is_vector(t) || kinds.is_array(t) || is_closed_struct(kinds, t)
}

/// Whether values make up a value of a type. Of a type that is no composite only values are asked.
fn constructs(tables: &Tables, t: u32, ids: &[u32]) -> bool
    ensures { result ≡ composites.constructs tables.now t ids.now }
{
    let kinds = tables.kinds();
    if kinds.is_vector(t) {
        make_vector(kinds, t, ids)
    } else if kinds.is_array(t) {
        make_array(tables, t, ids)
    } else if is_closed_struct(kinds, t) {
        make_struct(kinds, t, ids)
    } else {
        all_values(kinds, ids)
    }
}

/// The type of the part of a value that literals lead to. None where they lead to none.
fn part_of_value(kinds: &Kinds, id: u32, literals: &[u32]) -> Option<u32>
    ensures { result ≡ composites.part_of_value kinds.now id literals.now }
{
    match value_type(kinds, id) {
        Some(t) => part_along(kinds, literals, t),
        None => None,
    }
}

/// Whether one or more literals lead to a part of a value.
fn extracts(kinds: &Kinds, composite: u32, literals: &[u32]) -> bool
    ensures { result ≡ composites.extracts kinds.now composite literals.now }
{
    !literals.is_empty() && part_of_value(kinds, composite, literals).is_some()
}

/// Whether one or more literals lead to a part of a value, of an object's type.
fn inserts(kinds: &Kinds, object: u32, composite: u32, literals: &[u32]) -> bool
    ensures { result ≡ composites.inserts kinds.now object composite literals.now }
{
    match (value_type(kinds, object), value_type(kinds, composite)) {
        (Some(part), Some(whole)) => literals_lead(kinds, literals, whole, part),
        _ => false,
    }
}

/// Whether a value is of another type that matches this one.
fn copies_logically(forms: &Forms, t: u32, id: u32) -> bool
    ensures { result ≡ composites.copies_logically forms.now t id }
{
    match value_type(forms.tables().kinds(), id) {
        Some(of) => of != t && forms.matches(of, t),
        None => false,
    }
}

/// Whether each value of pairs of a value and a block is of a type.
fn merges(kinds: &Kinds, t: u32, pairs: &[u32]) -> bool
    ensures { result ≡ composites.merges kinds.now t pairs.now }
{
    let mut rest = pairs;
    'pairs: while let [value, _, after @ ..] = rest {
        if !is_value_of(kinds, t, *value) {
            return false;
        }
        rest = after;
    }
    true
}

/// Whether the operands of an instruction on composites, copies or values of other blocks fit (501). Every other
/// instruction passes.
#[tactic(auto, unfolding(crate::specs::Composites::composite_operands_fit))]
pub fn composite_operands_fit(forms: &Forms, inst: &View) -> bool
    ensures { result ≡ composites.composite_operands_fit forms.now (seen inst.now) }
{
    let tables = forms.tables();
    let kinds = tables.kinds();
    match inst.opcode() {
        op::COMPOSITE_CONSTRUCT => constructs(tables, word(inst, 1), words_from(inst, 3)),
        op::COMPOSITE_EXTRACT => extracts(kinds, word(inst, 3), words_from(inst, 4)),
        op::COMPOSITE_INSERT => {
            inserts(kinds, word(inst, 3), word(inst, 4), words_from(inst, 5))
        }
        op::COPY_OBJECT => is_value_of(kinds, word(inst, 1), word(inst, 3)),
        op::COPY_LOGICAL => copies_logically(forms, word(inst, 1), word(inst, 3)),
        op::PHI => merges(kinds, word(inst, 1), words_from(inst, 3)),
        _ => true,
    }
}

/// Whether the result of an instruction on composites, copies or values of other blocks fits (502). Every other
/// instruction passes.
#[tactic(auto, unfolding(crate::specs::Composites::composite_result_fits))]
pub fn composite_result_fits(kinds: &Kinds, inst: &View) -> bool
    ensures { result ≡ composites.composite_result_fits kinds.now (seen inst.now) }
{
    match inst.opcode() {
        op::COMPOSITE_CONSTRUCT => is_composite(kinds, word(inst, 1)),
        op::COMPOSITE_EXTRACT => {
            leads_to(
                word(inst, 1),
                part_of_value(kinds, word(inst, 3), words_from(inst, 4)),
            )
        }
        op::COMPOSITE_INSERT => is_value_of(kinds, word(inst, 1), word(inst, 4)),
        op::COPY_OBJECT | op::UNDEF | op::PHI => kinds.is_closed(word(inst, 1)),
        _ => true,
    }
}

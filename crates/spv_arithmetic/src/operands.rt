ghost use Rattle.std.specs.Prelude.{◌≡◌};
ghost use Rattle.spv_module.specs.View.{seen};
ghost use Rattle.spv_arithmetic.specs.Operands as takes;
ghost use Rattle.spv_arithmetic.specs.declared.forms.Form.TheVariants as forms;

use crate::forms::{Form, first_operand, form_of};
use spv_ids::{word, words_from};
use spv_module::View;
use spv_opcodes::op;
use spv_typing::Kinds;
use spv_typing::shapes::count_of;
use spv_values::{is_bools, is_ints, is_value_of, value_shape, value_type};

/// How many components the first of some operands has; 0 where it is no scalar and no vector, and where there
/// is none.
pub fn common_count(kinds: &Kinds, ids: &[u32]) -> u32
    ensures { result ≡ takes.common_count kinds.now ids.now }
{
    let first = ids.first().copied().unwrap_or(0);
    count_of(value_shape(kinds, first))
}

/// Whether each is an integer or a vector of integers, all with one number of components.
fn all_ints(kinds: &Kinds, ids: &[u32]) -> bool
    ensures { result ≡ takes.all_ints kinds.now ids.now }
{
    let count = common_count(kinds, ids);
    ids.iter().all(|id| is_ints(kinds, count, *id))
}

/// Whether each is a boolean or a vector of booleans, all with one number of components.
fn all_bools(kinds: &Kinds, ids: &[u32]) -> bool
    ensures { result ≡ takes.all_bools kinds.now ids.now }
{
    let count = common_count(kinds, ids);
    ids.iter().all(|id| is_bools(kinds, count, *id))
}

/// Whether two values have one type.
fn have_one_type(kinds: &Kinds, first: u32, second: u32) -> bool
    ensures { result ≡ takes.have_one_type kinds.now first second }
{
    match value_type(kinds, first) {
        Some(t) => is_value_of(kinds, t, second),
        None => false,
    }
}

/// Whether both are integers, which tell a field of bits.
fn is_field(kinds: &Kinds, offset: u32, count: u32) -> bool
    ensures { result ≡ takes.is_field kinds.now offset count }
{
    is_ints(kinds, 1, offset) && is_ints(kinds, 1, count)
}

/// Whether a selection of values of the type `t` may have this condition.
fn condition_fits(kinds: &Kinds, t: u32, condition: u32) -> bool
    ensures { result ≡ takes.condition_fits kinds.now t condition }
{
    match kinds.shape(t) {
        Some(shape) => is_bools(kinds, 1, condition) || is_bools(kinds, shape.count, condition),
        None => is_bools(kinds, 1, condition),
    }
}

fn reduces_fit(kinds: &Kinds, t: u32, operands: &[u32]) -> bool
    ensures { result ≡ takes.operands_suit kinds.now forms.Reduces t operands.now }
{
    operands.len() == 1 && 2 <= common_count(kinds, operands) && all_bools(kinds, operands)
}

fn pairs_fit(kinds: &Kinds, t: u32, operands: &[u32]) -> bool
    ensures { result ≡ takes.operands_suit kinds.now forms.Pairs t operands.now }
{
    match operands {
        [first, second] => {
            all_ints(kinds, &[*first, *second]) && have_one_type(kinds, *first, *second)
        }
        _ => false,
    }
}

fn field_inserts_fit(kinds: &Kinds, t: u32, operands: &[u32]) -> bool
    ensures { result ≡ takes.operands_suit kinds.now forms.FieldInserts t operands.now }
{
    match operands {
        [base, insert, offset, count] => {
            all_ints(kinds, &[*base, *insert]) && is_field(kinds, *offset, *count)
        }
        _ => false,
    }
}

fn field_extracts_fit(kinds: &Kinds, t: u32, operands: &[u32]) -> bool
    ensures { result ≡ takes.operands_suit kinds.now forms.FieldExtracts t operands.now }
{
    match operands {
        [base, offset, count] => { all_ints(kinds, &[*base]) && is_field(kinds, *offset, *count) }
        _ => false,
    }
}

fn selects_fit(kinds: &Kinds, t: u32, operands: &[u32]) -> bool
    ensures { result ≡ takes.operands_suit kinds.now forms.Selects t operands.now }
{
    match operands {
        [condition, first, second] => {
            condition_fits(kinds, t, *condition)
                && is_value_of(kinds, t, *first)
                && is_value_of(kinds, t, *second)
        }
        _ => false,
    }
}

/// Whether the set is one of extended instructions, and each operand an integer or a vector of integers.
#[tactic(auto, unfolding(crate::specs::Operands::suits_set))]
fn suits_set(kinds: &Kinds, set: u32, operands: &[u32]) -> bool
    ensures { result ≡ takes.suits_set kinds.now set operands.now }
{
    kinds.definitions().kind(set) == op::EXT_INST_IMPORT && all_ints(kinds, operands)
}

fn extended_fit(kinds: &Kinds, t: u32, operands: &[u32]) -> bool
    ensures { result ≡ takes.operands_suit kinds.now forms.Extended t operands.now }
{
    match operands {
        [set, _, operands @ ..] => suits_set(kinds, *set, operands),
        _ => false,
    }
}

fn branches_fit(kinds: &Kinds, t: u32, operands: &[u32]) -> bool
    ensures { result ≡ takes.operands_suit kinds.now forms.Branches t operands.now }
{
    match operands {
        [condition, ..] => is_bools(kinds, 1, *condition),
        _ => false,
    }
}

fn switches_fit(kinds: &Kinds, t: u32, operands: &[u32]) -> bool
    ensures { result ≡ takes.operands_suit kinds.now forms.Switches t operands.now }
{
    match operands {
        [selector, ..] => is_ints(kinds, 1, *selector),
        _ => false,
    }
}

/// Whether the operands suit a form, those of a selection also its result's type `t`.
fn operands_suit(kinds: &Kinds, form: Form, t: u32, operands: &[u32]) -> bool
    ensures { result ≡ takes.operands_suit kinds.now form t operands.now }
{
    match form {
        Form::Ints(count) => operands.len() == count && all_ints(kinds, operands),
        Form::Bools(count) => operands.len() == count && all_bools(kinds, operands),
        Form::Compares => operands.len() == 2 && all_ints(kinds, operands),
        Form::Reduces => reduces_fit(kinds, t, operands),
        Form::Pairs => pairs_fit(kinds, t, operands),
        Form::FieldInserts => field_inserts_fit(kinds, t, operands),
        Form::FieldExtracts => field_extracts_fit(kinds, t, operands),
        Form::Selects => selects_fit(kinds, t, operands),
        Form::Extended => extended_fit(kinds, t, operands),
        Form::Converts => true,
        Form::Branches => branches_fit(kinds, t, operands),
        Form::Switches => switches_fit(kinds, t, operands),
    }
}

/// Whether the operands of an instruction are of the types that it asks for. Every instruction fits that has no
/// form.
#[tactic(auto, unfolding(crate::specs::Operands::operands_fit))]
pub fn operands_fit(kinds: &Kinds, inst: &View) -> bool
    ensures { result ≡ takes.operands_fit kinds.now (seen inst.now) }
{
    match form_of(inst.opcode()) {
        Some(form) => {
            operands_suit(
                kinds,
                form,
                word(inst, 1),
                words_from(inst, first_operand(form)),
            )
        }
        None => true,
    }
}

ghost use Rattle.std.specs.Prelude.{◌≡◌};
ghost use Rattle.spv_module.specs.View.{seen};
ghost use Rattle.spv_arithmetic.specs.Results as gives;
ghost use Rattle.spv_arithmetic.specs.declared.forms.Form.TheVariants as forms;

use crate::forms::{Form, first_operand, form_of};
use crate::operands::common_count;
use spv_ids::{word, words_from};
use spv_module::View;
use spv_typing::Kinds;
use spv_typing::shapes::has_shape;
use spv_values::value_type;

/// Whether there are exactly two members, both of the type `u`.
fn are_two_of(u: u32, members: &[u32]) -> bool
    ensures { result ≡ gives.are_two_of u members.now }
{
    match members {
        [first, second] => *first == u && *second == u,
        _ => false,
    }
}

/// Whether the type `t` is a struct of exactly two members of the type `u`.
fn is_pair_of(kinds: &Kinds, t: u32, u: u32) -> bool
    ensures { result ≡ gives.is_pair_of kinds.now t u }
{
    kinds.is_struct(t) && are_two_of(u, kinds.members(t))
}

/// Whether the type `t` has so many integers for components.
fn gives_ints(kinds: &Kinds, t: u32, count: u32) -> bool
    ensures { result ≡ gives.gives_ints kinds.now t count }
{
    has_shape(false, count, kinds.shape(t))
}

/// Whether the type `t` has so many booleans for components.
fn gives_bools(kinds: &Kinds, t: u32, count: u32) -> bool
    ensures { result ≡ gives.gives_bools kinds.now t count }
{
    has_shape(true, count, kinds.shape(t))
}

fn gives_pair(kinds: &Kinds, t: u32, operands: &[u32]) -> bool
    ensures { result ≡ gives.result_suits kinds.now forms.Pairs t operands.now }
{
    let first = operands.first().copied().unwrap_or(0);
    match value_type(kinds, first) {
        Some(u) => is_pair_of(kinds, t, u),
        None => false,
    }
}

fn gives_extended(kinds: &Kinds, t: u32, operands: &[u32]) -> bool
    ensures { result ≡ gives.result_suits kinds.now forms.Extended t operands.now }
{
    match operands {
        [_, _, operands @ ..] => gives_ints(kinds, t, common_count(kinds, operands)),
        _ => false,
    }
}

/// Whether the result's type `t` suits a form and its operands.
fn result_suits(kinds: &Kinds, form: Form, t: u32, operands: &[u32]) -> bool
    ensures { result ≡ gives.result_suits kinds.now form t operands.now }
{
    match form {
        Form::Ints(_) | Form::FieldInserts | Form::FieldExtracts => {
            gives_ints(kinds, t, common_count(kinds, operands))
        }
        Form::Bools(_) | Form::Compares => gives_bools(kinds, t, common_count(kinds, operands)),
        Form::Reduces => gives_bools(kinds, t, 1),
        Form::Pairs => gives_pair(kinds, t, operands),
        Form::Selects => kinds.is_closed(t),
        Form::Extended => gives_extended(kinds, t, operands),
        Form::Converts => false,
        Form::Branches | Form::Switches => true,
    }
}

/// Whether an instruction's result is of the type that its operands ask for. Every instruction fits that has no
/// form.
#[tactic(auto, unfolding(crate::specs::Results::result_fits))]
pub fn result_fits(kinds: &Kinds, inst: &View) -> bool
    ensures { result ≡ gives.result_fits kinds.now (seen inst.now) }
{
    match form_of(inst.opcode()) {
        Some(form) => {
            result_suits(
                kinds,
                form,
                word(inst, 1),
                words_from(inst, first_operand(form)),
            )
        }
        None => true,
    }
}

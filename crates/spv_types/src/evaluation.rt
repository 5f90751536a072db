// Operations that are evaluated component by component.
ghost use Rattle.std.specs.Prelude.{◌≡◌, ◌==◌, ◌&&◌, nat_le, ℕ, List, Some, map};
ghost use Rattle.std.specs.List.{list_all};
ghost use Rattle.spv_value.specs.Words.{words_of, operands};
ghost use Rattle.spv_value.specs.Eval.{Eval};
ghost use Rattle.spv_meaning.specs.Constants.{Table, typed_at};
ghost use Rattle.spv_typing.specs.Operations.{form_of};
ghost use Rattle.spv_folding.specs.Folding.{AreOperands};
ghost use Rattle.spv_types.specs.Meanings.{StandFor};
ghost use Rattle.spv_types.specs.Declaring.{AreSmall};
ghost use Rattle.spv_types.specs.Suits as suits;

use crate::meanings::Meanings;
use crate::operands::operand_of;
use spv_folding::{evaluate, zeros};
use spv_typing::operations::Form;
use spv_value::Operand;

/// How many words the first operand has.
fn first_len(input: &[Operand]) -> u8
    ensures { result ≡ suits.first_len input.now }
{
    match input {
        [first, ..] => first.len,
        [] => 0,
    }
}

fn are_long(len: u8, input: &[Operand]) -> bool
    ensures { result ≡ list_all (λ x. x.len == len) input.now }
{
    input.iter().all(|operand| operand.len == len)
}

fn is_few(len: u8) -> bool
    ensures { result ≡ (nat_le 1 len && nat_le len 4) }
{
    1 <= len && len <= 4
}

/// Whether there are so many operands, of so many components each, one to four.
fn have_components(count: usize, len: u8, input: &[Operand]) -> bool
    ensures { result ≡ suits.have_components count len input.now }
{
    input.len() == count && is_few(len) && are_long(len, input)
}

/// Whether there are so many operands, of as many components each, one to four.
fn are_components(count: usize, input: &[Operand]) -> bool
    ensures { result ≡ suits.are_components count input.now }
{
    have_components(count, first_len(input), input)
}

/// Whether each of at most four words is 0 or 1.
fn is_boolean(operand: &Operand) -> bool
    ensures { result ≡ suits.is_boolean operand.now }
{
    (operand.len < 1 || operand.w0 < 2)
        && (operand.len < 2 || operand.w1 < 2)
        && (operand.len < 3 || operand.w2 < 2)
        && (operand.len < 4 || operand.w3 < 2)
}

fn are_booleans(input: &[Operand]) -> bool
    ensures { result ≡ list_all suits.is_boolean input.now }
{
    input.iter().all(|operand| is_boolean(operand))
}

/// Whether there are a condition and two operands that a selection takes.
fn are_choices(input: &[Operand]) -> bool
    ensures { result ≡ suits.are_choices input.now }
{
    match input {
        [condition, first, second] => {
            1 <= first.len
                && first.len <= 4
                && second.len == first.len
                && (condition.len == 1 || condition.len == first.len)
                && is_boolean(condition)
        }
        _ => false,
    }
}

/// Whether the operands suit an operation of the form.
fn operands_suit(form: Form, input: &[Operand]) -> bool
    ensures { result ≡ suits.operands_suit form input.now }
{
    match form {
        Form::Ints(count) => are_components(count, input),
        Form::Bools(count) => are_components(count, input) && are_booleans(input),
        Form::Compares => are_components(2, input),
        Form::Selects => are_choices(input),
        Form::Shuffles | Form::Extracts | Form::Inserts => false,
    }
}

/// What the operation makes of operands that suit it; of others nothing.
fn evaluate_suited(form: Form, opcode: u16, input: &[Operand]) -> Operand
    requires { form_of opcode ≡ Some form }
    ensures { (c : ℕ) → AreOperands form c (operands input.now) → words_of result ≡ Eval 32 opcode (operands input.now) }
{
    if operands_suit(form, input) {
        evaluate(opcode, input)
    } else {
        zeros(0)
    }
}

/// What the operation makes of the scalars and vectors that the ids are.
pub fn evaluated(meanings: &Meanings, form: Form, opcode: u16, ids: &[u32]) -> Operand
    requires { form_of opcode ≡ Some form }
    ensures { (table : Table) (specialised : List ℕ) (c : ℕ) → StandFor table specialised meanings.now.entries → AreSmall table ids.now → AreOperands form c (map (λ v. v.words) (map (typed_at table) ids.now)) → words_of result ≡ Eval 32 opcode (map (λ v. v.words) (map (typed_at table) ids.now)) }
{
    match ids {
        [a] => evaluate_suited(form, opcode, &[operand_of(meanings, *a)]),
        [a, b] => {
            evaluate_suited(
                form,
                opcode,
                &[operand_of(meanings, *a), operand_of(meanings, *b)],
            )
        }
        [a, b, c] => evaluate_suited(
            form,
            opcode,
            &[
                operand_of(meanings, *a),
                operand_of(meanings, *b),
                operand_of(meanings, *c),
            ],
        ),
        _ => zeros(0),
    }
}

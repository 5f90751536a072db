// What OpSpecConstantOp computes of constants.
ghost use Rattle.std.specs.Prelude.{◌≡◌, ◌≤◌, ℕ, true, List, nat_le, length, Some, slice_index};
ghost use Rattle.std.specs.List.{list_all};
ghost use Rattle.spv_opcodes.specs.declared.op.TheConstants as op;
ghost use Rattle.spv_module.specs.Instruction.{Instruction, opcode as opcode_in};
ghost use Rattle.spv_module.specs.View.{seen};
ghost use Rattle.spv_value.specs.Words.{words_of};
ghost use Rattle.spv_meaning.specs.Constants.{Table, IsConstant, type_at};
ghost use Rattle.spv_meaning.specs.Types.{DataType, cells};
ghost use Rattle.spv_ids.specs.Ids.{is_defined_before};
ghost use Rattle.spv_typing.specs.Operations.{form_of as form_in, operands_fit};
ghost use Rattle.spv_declarations.specs.Declarations.{says, entry};
ghost use Rattle.spv_declarations.specs.Sound.{IsBefore, table_before};
ghost use Rattle.spv_types.specs.Meanings.{StandFor, is_small};
ghost use Rattle.spv_types.specs.Extracting.{AreComposed};
ghost use Rattle.spv_types.specs.Declaring.{IsReady};
ghost use Rattle.spv_types.specs.Computing.{computed_by, ids_by, IsShuffled, IsInserted, IsExtractedFrom, IsExtracted};

use crate::evaluation::evaluated;
use crate::extraction::part_along;
use crate::meanings::Meanings;
use crate::operands::{number_of, operand_of};
use spv_folding::{component, shuffle, with_component, zeros};
use spv_ids::{word, words_from};
use spv_module::View;
use spv_typing::Kinds;
use spv_typing::operations::{Form, form_of};
use spv_typing::shapes::count_of;
use spv_value::Operand;

/// Components of two vectors, by the ids of the vectors and literals of which there are four at most.
fn shuffled(meanings: &Meanings, operands: &[u32]) -> Operand
    ensures { (table : Table) (specialised : List ℕ) → StandFor table specialised meanings.now.entries → IsShuffled table operands.now result }
{
    match operands {
        [first, second, literals @ ..] => {
            if literals.len() > 4 {
                return zeros(0);
            }
            shuffle(
                &operand_of(meanings, *first),
                &operand_of(meanings, *second),
                literals,
            )
        }
        _ => zeros(0),
    }
}

fn is_short(vector: &Operand) -> bool
    ensures { result ≡ nat_le (length (words_of vector.now)) 4 }
{
    vector.len <= 4
}

/// A vector of at most four components with another in one place, by the ids of the component and the vector
/// and a literal.
fn inserted(meanings: &Meanings, operands: &[u32]) -> Operand
    ensures { (table : Table) (specialised : List ℕ) → StandFor table specialised meanings.now.entries → IsInserted table operands.now result }
{
    match operands {
        [object, composite, literal] => {
            let vector = operand_of(meanings, *composite);
            if !is_short(&vector) {
                return zeros(0);
            }
            with_component(
                &vector,
                *literal as usize,
                component(&operand_of(meanings, *object), 0),
            )
        }
        _ => zeros(0),
    }
}

/// The part, of so many words, of the constant that literals lead to.
fn extracted_from(meanings: &Meanings, count: u32, composite: u32, literals: &[u32]) -> Operand
    ensures { (table : Table) (specialised : List ℕ) (t : DataType) → StandFor table specialised meanings.now.entries → AreComposed table meanings.now.entries → is_small t ≡ true → cells t ≡ count → count ≤ 4 → IsExtractedFrom table t composite literals.now result }
{
    match number_of(meanings, composite) {
        Some(number) => part_along(meanings, count, number, literals),
        None => zeros(0),
    }
}

/// The part, of so many words, that literals lead to, by the id of the composite and the literals.
fn extracted(meanings: &Meanings, count: u32, operands: &[u32]) -> Operand
    ensures { (table : Table) (specialised : List ℕ) (t : DataType) → StandFor table specialised meanings.now.entries → AreComposed table meanings.now.entries → is_small t ≡ true → cells t ≡ count → count ≤ 4 → IsExtracted table t operands.now result }
{
    match operands {
        [composite, literals @ ..] => extracted_from(meanings, count, *composite, literals),
        _ => zeros(0),
    }
}

/// What an operation of the form makes of the words behind its opcode.
fn by_form(
    kinds: &Kinds,
    meanings: &Meanings,
    form: Form,
    opcode: u16,
    t: u32,
    operands: &[u32],
) -> Operand
    requires { form_in opcode ≡ Some form }
    ensures { (k : ℕ) (i : Instruction) → IsReady kinds.now k i meanings.now.entries → IsBefore kinds.now k t → operands_fit kinds.now form t operands.now ≡ true → list_all (is_defined_before kinds.now k) (ids_by form operands.now) ≡ true → words_of result ≡ computed_by (table_before kinds.now k) form opcode (type_at (table_before kinds.now k) t) operands.now }
{
    match form {
        Form::Shuffles => shuffled(meanings, operands),
        Form::Extracts => extracted(meanings, count_of(kinds.shape(t)), operands),
        Form::Inserts => inserted(meanings, operands),
        Form::Ints(_) => evaluated(meanings, form, opcode, operands),
        Form::Bools(_) => evaluated(meanings, form, opcode, operands),
        Form::Compares => evaluated(meanings, form, opcode, operands),
        Form::Selects => evaluated(meanings, form, opcode, operands),
    }
}

/// The words of the scalar or vector that the OpSpecConstantOp computes. Of any other instruction some words.
pub fn computed_constant(kinds: &Kinds, meanings: &Meanings, inst: &View) -> Operand
    ensures { (k : ℕ) (t : DataType) (words : List ℕ) → IsReady kinds.now k (seen inst.now) meanings.now.entries → opcode_in (seen inst.now) ≡ op.SPEC_CONSTANT_OP → entry (says kinds.now) (table_before kinds.now k) (seen inst.now) ≡ Some (slice_index (seen inst.now).words 2, IsConstant t words) → words_of result ≡ words }
{
    let Ok(opcode) = u16::try_from(word(inst, 3)) else {
        return zeros(0);
    };
    match form_of(u32::from(opcode)) {
        Some(form) => {
            by_form(
                kinds,
                meanings,
                form,
                opcode,
                word(inst, 1),
                words_from(inst, 4),
            )
        }
        None => zeros(0),
    }
}

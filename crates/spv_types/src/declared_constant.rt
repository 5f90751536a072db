// What is kept of constants that are declared.
ghost use Rattle.std.specs.Prelude.{◌≡◌, ℕ, ◌&&◌, true, false, List, IfOk};
ghost use Rattle.std.specs.List.{list_any, zip};
ghost use Rattle.spv_grammar.specs.Roles.{is_used_id};
ghost use Rattle.spv_module.specs.Instruction.{Instruction, opcode as opcode_in};
ghost use Rattle.spv_module.specs.View.{seen};
ghost use Rattle.spv_meaning.specs.Constants.{type_at, zeros as zeros_of};
ghost use Rattle.spv_typing.specs.Kinds.{is_one_of, is_closed};
ghost use Rattle.spv_declarations.specs.Declarations.{Declared, declared_before, says, is_specialised as specialised_in};
ghost use Rattle.spv_ids.specs.Ids.{words_with};
ghost use Rattle.spv_declarations.specs.Sound.{IsBefore, table_before};
ghost use Rattle.spv_types.specs.Meanings.{StandFor};
ghost use Rattle.spv_types.specs.Steps.{IsNext, KeepsConstant, constant_opcodes};
ghost use Rattle.spv_types.specs.Extracting.{AreComposed};
ghost use Rattle.spv_types.specs.Declaring.{OnlyConstants, AreSound, IsReady, HasWords, DeclaresWords, flag_at};

use crate::composites::{composite, small};
use crate::computed_constant::computed_constant;
use crate::extraction::small_zeros;
use crate::meaning::{Constant, Value};
use crate::meanings::{Meanings, type_facts};
use crate::operands::is_specialised as is_specialised_id;
use spv_base::NoMemory;
use spv_decorations::Decorations;
use spv_folding::of_word;
use spv_grammar::kind::Role;
use spv_ids::{word, words_from};
use spv_module::View;
use spv_opcodes::{decoration, op};
use spv_typing::Kinds;
use std::alloc::Global;

/// Whether one of the words is an operand that is a Specialised constant.
fn have_specialised(meanings: &Meanings, roles: &[Role], words: &[u32]) -> bool
    ensures { result ≡ list_any (λ part. is_used_id part.0 && flag_at meanings.now.entries part.1) (zip roles.now words.now) }
{
    roles.iter().zip(words).any(|(role, word)| role.is_used_id()
        && is_specialised_id(meanings, *word))
}

/// Whether an operand of the instruction is a Specialised constant.
fn names_specialised(meanings: &Meanings, inst: &View) -> bool
    ensures { (d : Declared) → StandFor d.table d.specialised meanings.now.entries → OnlyConstants d → result ≡ list_any (is_one_of d.specialised) (words_with is_used_id (seen inst.now)) }
{
    have_specialised(meanings, inst.roles(), inst.words)
}

/// Whether a specialisation may change the constant that the instruction declares.
fn is_specialised(decorations: &Decorations, meanings: &Meanings, inst: &View) -> bool
    ensures { (d : Declared) → StandFor d.table d.specialised meanings.now.entries → OnlyConstants d → result ≡ specialised_in (says decorations.now) d.specialised (seen inst.now) }
{
    match inst.opcode() {
        op::SPEC_CONSTANT_TRUE | op::SPEC_CONSTANT_FALSE | op::SPEC_CONSTANT => {
            decorations.has(word(inst, 2), decoration::SPEC_ID as u32)
        }
        op::SPEC_CONSTANT_COMPOSITE | op::SPEC_CONSTANT_OP => names_specialised(meanings, inst),
        _ => false,
    }
}

/// What is kept of a constant of this type that is zeros.
fn null(kinds: &Kinds, meanings: &Meanings, t: u32, is_specialised: bool) -> Constant
    ensures flag { result.is_specialised ≡ is_specialised }
    ensures words { (k : ℕ) (i : Instruction) → IsReady kinds.now k i meanings.now.entries → IsBefore kinds.now k t → is_closed kinds.now t ≡ true → HasWords (table_before kinds.now k) (type_at (table_before kinds.now k) t) (zeros_of (type_at (table_before kinds.now k) t)) result }
{
    match kinds.shape(t) {
        Some(shape) => small(is_specialised, small_zeros(shape.count)),
        None => Constant {
            is_specialised,
            cells: type_facts(meanings, t).cells,
            value: Value::Zeros,
        },
    }
}

/// What is kept of the constant that the instruction declares, where it is known whether a specialisation may change it.
fn with_words(
    alloc: Global,
    kinds: &Kinds,
    meanings: &Meanings,
    inst: &View,
    is_specialised: bool,
) -> Result<Constant, NoMemory>
    ensures flag { IfOk result (λ c. c.is_specialised ≡ is_specialised) }
    ensures words { IfOk result (λ c. (k : ℕ) → IsReady kinds.now k (seen inst.now) meanings.now.entries → is_one_of constant_opcodes (opcode_in (seen inst.now)) ≡ true → DeclaresWords kinds.now k (seen inst.now) c) }
{
    let t = word(inst, 1);
    match inst.opcode() {
        op::CONSTANT_TRUE | op::SPEC_CONSTANT_TRUE => Ok(small(is_specialised, of_word(1))),
        op::CONSTANT_FALSE | op::SPEC_CONSTANT_FALSE => Ok(small(is_specialised, of_word(0))),
        op::CONSTANT | op::SPEC_CONSTANT => Ok(small(is_specialised, of_word(word(inst, 3)))),
        op::CONSTANT_COMPOSITE | op::SPEC_CONSTANT_COMPOSITE => {
            composite(
                alloc,
                kinds,
                meanings,
                t,
                words_from(inst, 3),
                is_specialised,
            )
        }
        op::SPEC_CONSTANT_OP => Ok(small(is_specialised, computed_constant(kinds, meanings, inst))),
        _ => Ok(null(kinds, meanings, t, is_specialised)),
    }
}

/// What is kept of the constant that the instruction declares.
pub fn declared_constant(
    alloc: Global,
    kinds: &Kinds,
    decorations: &Decorations,
    meanings: &Meanings,
    inst: &View,
) -> Result<Constant, NoMemory>
    requires same { decorations.now ≡ kinds.now }
    ensures { IfOk result (λ c. (k : ℕ) → IsNext kinds.now k (seen inst.now) → is_one_of constant_opcodes (opcode_in (seen inst.now)) ≡ true → AreComposed (declared_before kinds.now k).table meanings.now.entries → OnlyConstants (declared_before kinds.now k) → AreSound kinds.now k → StandFor (declared_before kinds.now k).table (declared_before kinds.now k).specialised meanings.now.entries → KeepsConstant kinds.now (declared_before kinds.now k) (seen inst.now) c) }
{
    let is_specialised = is_specialised(decorations, meanings, inst);
    with_words(alloc, kinds, meanings, inst, is_specialised)
}

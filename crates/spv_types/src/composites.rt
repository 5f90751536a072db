// Constants of constituents.
ghost use Rattle.std.specs.Prelude.{◌≡◌, ℕ, ◌≤◌, ◌++◌, true, false, List, OnOk, IfOk, length, slice_index};
ghost use Rattle.std.specs.List.{list_all};
ghost use Rattle.spv_value.specs.Words.{words_of};
ghost use Rattle.spv_meaning.specs.Constants.{Table, typed_at, type_at, composed};
ghost use Rattle.spv_meaning.specs.Types.{DataType};
ghost use Rattle.spv_module.specs.Instruction.{Instruction};
ghost use Rattle.spv_ids.specs.Ids.{is_defined_before};
ghost use Rattle.spv_declarations.specs.Constants.{composite_fits};
ghost use Rattle.spv_declarations.specs.Declarations.{declared_before};
ghost use Rattle.spv_declarations.specs.Sound.{IsBefore, table_before};
ghost use Rattle.spv_types.specs.Facts.{in_64_bits};
ghost use Rattle.spv_types.specs.Meanings.{StandFor, AllBelow, joined, is_small};
ghost use Rattle.spv_types.specs.Declaring.{AreScalars, HasParts, AddsNumber, HasConstituents, HasWords, IsReady};

use crate::facts::plus;
use crate::meaning::{Constant, Value};
use crate::meanings::Meanings;
use crate::operands::{cells_of, number_of, operand_of};
use spv_base::NoMemory;
use spv_folding::{component, with_component, zeros};
use spv_typing::Kinds;
use spv_value::Operand;
use std::alloc::Global;

/// A constant that is a scalar or a vector.
pub fn small(is_specialised: bool, operand: Operand) -> Constant
    ensures flag { result.is_specialised ≡ is_specialised }
    ensures words { (table : Table) (t : DataType) → is_small t ≡ true → HasWords table t (words_of operand) result }
{
    Constant {
        is_specialised,
        cells: Some(u64::from(operand.len)),
        value: Value::Small(operand),
    }
}

/// The first word of the scalar or vector that the id is.
fn first_word(meanings: &Meanings, id: u32) -> u32
    ensures { (table : Table) (ids : List ℕ) → StandFor table ids meanings.now.entries → is_small (typed_at table id).type ≡ true → result ≡ slice_index (typed_at table id).words 0 }
{
    component(&operand_of(meanings, id), 0)
}

/// The vector of the scalars that the ids are, of the first four.
fn vector_of(meanings: &Meanings, ids: &[u32]) -> Operand
    ensures { (table : Table) (specialised : List ℕ) → StandFor table specialised meanings.now.entries → length ids.now ≤ 4 → AreScalars table ids.now → words_of result ≡ composed table ids.now }
{
    let mut vector = zeros(ids.len().min(4) as u8);
    'constituents: for (i, id) in ids.iter().enumerate() {
        vector = with_component(&vector, i, first_word(meanings, *id));
    }
    vector
}

/// How many words the constants have together. None where that passes 64 bits.
fn cells_of_all(meanings: &Meanings, ids: &[u32]) -> Option<u64>
    ensures { (table : Table) (specialised : List ℕ) → StandFor table specialised meanings.now.entries → result ≡ in_64_bits (length (composed table ids.now)) }
{
    let mut cells = Some(0);
    'constituents: for id in ids {
        cells = plus(cells, cells_of(meanings, *id));
    }
    cells
}

/// Adds the number of the id among the meanings, where it has one. Ids have 32 bits, so that numbers do too.
fn add_number(meanings: &Meanings, numbers: &mut Vec<u32>, id: u32) -> Result<(), NoMemory>
    ensures { OnOk result ((table : Table) (specialised : List ℕ) → StandFor table specialised meanings.now.entries → AddsNumber table id numbers.old.items numbers.new.items) }
{
    let Some(number) = number_of(meanings, id) else {
        return Ok(());
    };
    match u32::try_from(number) {
        Ok(number) => {
            numbers.push(number)?;
            Ok(())
        }
        Err(_) => Err(NoMemory),
    }
}

/// The numbers of the ids among the meanings.
fn numbers_of(alloc: Global, meanings: &Meanings, ids: &[u32]) -> Result<Vec<u32>, NoMemory>
    ensures { IfOk result (λ numbers. (table : Table) (specialised : List ℕ) → StandFor table specialised meanings.now.entries → HasParts table ids.now numbers.items) }
{
    let mut numbers = Vec::new(alloc);
    'constituents: for id in ids {
        add_number(meanings, &mut numbers, *id)?;
    }
    Ok(numbers)
}

/// What is kept of an array or a struct of these constituents.
fn parts(
    alloc: Global,
    meanings: &Meanings,
    ids: &[u32],
    is_specialised: bool,
) -> Result<Constant, NoMemory>
    ensures flag { IfOk result (λ c. c.is_specialised ≡ is_specialised) }
    ensures constituents { IfOk result (λ c. (table : Table) (specialised : List ℕ) → StandFor table specialised meanings.now.entries → HasConstituents table ids.now c) }
{
    Ok(Constant {
        is_specialised,
        cells: cells_of_all(meanings, ids),
        value: Value::Parts(numbers_of(alloc, meanings, ids)?),
    })
}

/// What is kept of a constant of this type of these constituents.
pub fn composite(
    alloc: Global,
    kinds: &Kinds,
    meanings: &Meanings,
    t: u32,
    ids: &[u32],
    is_specialised: bool,
) -> Result<Constant, NoMemory>
    ensures flag { IfOk result (λ c. c.is_specialised ≡ is_specialised) }
    ensures words { IfOk result (λ c. (k : ℕ) (i : Instruction) → IsReady kinds.now k i meanings.now.entries → IsBefore kinds.now k t → list_all (is_defined_before kinds.now k) ids.now ≡ true → composite_fits kinds.now (declared_before kinds.now k) t ids.now ≡ true → HasWords (table_before kinds.now k) (type_at (table_before kinds.now k) t) (composed (table_before kinds.now k) ids.now) c) }
{
    if kinds.is_vector(t) {
        Ok(small(is_specialised, vector_of(meanings, ids)))
    } else {
        parts(alloc, meanings, ids, is_specialised)
    }
}

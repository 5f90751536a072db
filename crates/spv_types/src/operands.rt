// Constants by their ids.
ghost use Rattle.std.specs.Prelude.{◌≡◌, ℕ, ◌<◌, true, List, [], None, Some, IfSome, IfNone, length, nat_eq, slice_get};
ghost use Rattle.std.specs.Map.{lookup};
ghost use Rattle.std.specs.Option.{option_copied};
ghost use Rattle.spv_value.specs.Words.{words_of};
ghost use Rattle.spv_meaning.specs.Constants.{Table, meaning, words_at, typed_at};
ghost use Rattle.spv_types.specs.Facts.{in_64_bits};
ghost use Rattle.spv_types.specs.Meanings.{StandFor, constant_of_kept, cells_of_constant, is_small, second};
ghost use Rattle.spv_types.specs.Declaring.{flag_of, flag_at, IsNumber, IsOperandOf};

use crate::meaning::{Constant, Kept, Value};
use crate::meanings::Meanings;
use spv_folding::zeros;
use spv_value::Operand;

/// The constant that is kept.
pub fn constant_in(kept: Option<&Kept>) -> Option<&Constant>
    ensures { option_copied result ≡ constant_of_kept (option_copied kept.entry) }
{
    match kept {
        Some(Kept::Constant(constant)) => Some(constant),
        _ => None,
    }
}

/// The constant that the id is.
pub fn constant_of(meanings: &Meanings, id: u32) -> Option<&Constant>
    ensures { option_copied result ≡ constant_of_kept (lookup (nat_eq id) meanings.now.entries) }
{
    constant_in(meanings.get(&id))
}

/// The constant that is the meaning of this number.
pub fn constant_numbered(meanings: &Meanings, number: usize) -> Option<&Constant>
    ensures { option_copied result ≡ constant_of_kept (second (slice_get meanings.now.entries number)) }
{
    match meanings.get_index(number) {
        Some((_, kept)) => constant_in(Some(kept)),
        None => None,
    }
}

fn flag_in(constant: Option<&Constant>) -> bool
    ensures { result ≡ flag_of (option_copied constant.entry) }
{
    match constant {
        Some(constant) => constant.is_specialised,
        None => false,
    }
}

/// Whether the id is a Specialised constant.
pub fn is_specialised(meanings: &Meanings, id: u32) -> bool
    ensures { result ≡ flag_at meanings.now.entries id }
{
    flag_in(constant_of(meanings, id))
}

/// How many words the constant has, and 0 where there is none. None where that passes 64 bits.
pub fn cells_in(constant: Option<&Constant>) -> Option<u64>
    ensures { result ≡ cells_of_constant (option_copied constant.entry) }
{
    match constant {
        Some(constant) => constant.cells,
        None => Some(0),
    }
}

/// How many words the constant has, and 0 where the id is none. None where that passes 64 bits.
#[tactic(auto, using(crate::proofs::ConstantLemmas::cells_kept_at))]
pub fn cells_of(meanings: &Meanings, id: u32) -> Option<u64>
    ensures { (table : Table) (ids : List ℕ) → StandFor table ids meanings.now.entries → result ≡ in_64_bits (length (words_at table id)) }
{
    cells_in(constant_of(meanings, id))
}

/// The words of a scalar or a vector; none of anything else.
pub fn operand_in(constant: Option<&Constant>) -> Operand
    ensures { IsOperandOf (option_copied constant.entry) result }
{
    match constant {
        Some(
            Constant {
                value: Value::Small(operand),
                ..
            },
        ) => *operand,
        _ => zeros(0),
    }
}

/// The words of the scalar or vector that the id is.
#[tactic(auto, using(crate::proofs::ConstantLemmas::operand_kept))]
pub fn operand_of(meanings: &Meanings, id: u32) -> Operand
    ensures { (table : Table) (ids : List ℕ) → StandFor table ids meanings.now.entries → is_small (typed_at table id).type ≡ true → words_of result ≡ (typed_at table id).words }
{
    operand_in(constant_of(meanings, id))
}

/// The number of the id among the meanings.
pub fn number_of(meanings: &Meanings, id: u32) -> Option<usize>
    ensures found { IfSome result (λ n. (table : Table) (ids : List ℕ) → StandFor table ids meanings.now.entries → IsNumber table id n) }
    ensures absent { IfNone result ((table : Table) (ids : List ℕ) → StandFor table ids meanings.now.entries → meaning table id ≡ None) }
{
    meanings.get_index_of(&id)
}

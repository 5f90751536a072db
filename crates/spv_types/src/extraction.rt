// The part of a constant that literals lead to.
ghost use Rattle.std.specs.Prelude.{◌≡◌, ℕ, ◌≤◌, true, List, replicate};
ghost use Rattle.std.specs.Option.{option_copied};
ghost use Rattle.spv_value.specs.Words.{words_of};
ghost use Rattle.spv_meaning.specs.Computations.{extracted, whole_part};
ghost use Rattle.spv_meaning.specs.Constants.{Table};
ghost use Rattle.spv_meaning.specs.Parts.{packed_part};
ghost use Rattle.spv_meaning.specs.Types.{DataType, cells};
ghost use Rattle.spv_types.specs.Meanings.{StandFor, words_numbered, is_small};
ghost use Rattle.spv_types.specs.Extracting.{LeadsTo, IsPart, AreComposed, IsStep};

use crate::meaning::{Constant, Value};
use crate::meanings::Meanings;
use crate::operands::{constant_numbered, operand_in};
use spv_folding::{component, of_word, zeros};
use spv_value::Operand;

/// So many zeros, of four at most.
pub fn small_zeros(count: u32) -> Operand
    ensures { count ≤ 4 → words_of result ≡ replicate count 0 }
{
    zeros(count.min(4) as u8)
}

/// One literal into a constant: the number of a part, or the result of so many words.
fn step_into(constant: Option<&Constant>, index: u32, count: u32) -> Result<usize, Operand>
    ensures { IsStep (option_copied constant.entry) index count result }
{
    match constant {
        Some(
            Constant {
                value: Value::Parts(numbers),
                ..
            },
        ) => match numbers.get(index as usize) {
            Some(part) => Ok(*part as usize),
            None => Err(small_zeros(count)),
        },
        Some(
            Constant {
                value: Value::Small(vector),
                ..
            },
        ) => Err(of_word(component(vector, index as usize))),
        _ => Err(small_zeros(count)),
    }
}

/// The part that the literals lead to, of so many words, of the constant that is the meaning of this number.
pub fn part_along(meanings: &Meanings, count: u32, first: usize, literals: &[u32]) -> Operand
    ensures { (table : Table) (specialised : List ℕ) (t u : DataType) → StandFor table specialised meanings.now.entries → AreComposed table meanings.now.entries → IsPart table u first → LeadsTo t u literals.now → is_small t ≡ true → cells t ≡ count → count ≤ 4 → words_of result ≡ extracted t (words_numbered table first) (packed_part literals.now (whole_part u)) }
{
    let mut number = first;
    'literals: for index in literals {
        match step_into(constant_numbered(meanings, number), *index, count) {
            Ok(part) => number = part,
            Err(operand) => return operand,
        }
    }
    operand_in(constant_numbered(meanings, number))
}

// The words of constants, one by one.
ghost use Rattle.std.specs.Prelude.{◌≡◌, ℕ, ◌<◌, List, None, Some, IfSome, IfNone, length, replicate, slice_get, Contains};
ghost use Rattle.spv_value.specs.Words.{words_of};
ghost use Rattle.spv_meaning.specs.Constants.{Table, words_at};
ghost use Rattle.spv_types.specs.Facts.{in_64_bits};
ghost use Rattle.spv_types.specs.Search.{StepsTo};
ghost use Rattle.spv_types.specs.Meanings.{StandFor, Stand, words_numbered, joined};

use crate::meaning::Value;
use crate::meanings::Meanings;
use crate::operands::{cells_in, constant_numbered, number_of};
use spv_folding::component;
use spv_value::Operand;

/// How many words the constant of this number has. None where that passes 64 bits.
#[tactic(auto, using(crate::proofs::WordLemmas::cells_kept))]
fn cells_numbered(meanings: &Meanings, number: u32) -> Option<u64>
    ensures { (table : Table) (ids : List ℕ) → StandFor table ids meanings.now.entries → result ≡ in_64_bits (length (words_numbered table number)) }
{
    cells_in(constant_numbered(meanings, number as usize))
}

/// The part in which a word of parts stands that lie one after the other, and the number of the word in it.
fn find_part(meanings: &Meanings, parts: &[u32], k: u64) -> Option<(u32, u64)>
    ensures found { IfSome result (λ p. (table : Table) (ids : List ℕ) → StandFor table ids meanings.now.entries → slice_get (joined table parts.now) k ≡ slice_get (words_numbered table p.0) p.1) }
    ensures among { IfSome result (λ p. Contains parts.now p.0) }
    ensures absent { IfNone result ((table : Table) (ids : List ℕ) → StandFor table ids meanings.now.entries → slice_get (joined table parts.now) k ≡ None) }
{
    let mut k = k;
    'parts: for part in parts {
        match cells_numbered(meanings, *part) {
            Some(cells) if cells <= k => k -= cells,
            _ => return Some((*part, k)),
        }
    }
    None
}

/// Where the search for a word of a constant comes to.
#[derive(Clone, Copy, Debug)]
enum Step {
    /// The word, if there is one.
    At(Option<u32>),
    /// A constant by its number, and the word's number in it.
    In(u32, u64),
}

/// The k-th word of a scalar or a vector.
#[tactic(auto, using(crate::proofs::WordLemmas::small_word))]
fn small_word(operand: &Operand, k: u64) -> Option<u32>
    ensures { result ≡ slice_get (words_of operand.now) k }
{
    if k < u64::from(operand.len) {
        Some(component(operand, k as usize))
    } else {
        None
    }
}

/// The k-th of so many zeros.
fn zero_word(cells: Option<u64>, k: u64) -> Option<u32>
    ensures { (n : ℕ) → cells ≡ in_64_bits n → result ≡ slice_get (replicate n 0) k }
{
    match cells {
        Some(cells) if k >= cells => None,
        _ => Some(0),
    }
}

/// Where the search for the k-th word of the constant of this number comes to.
fn descend(meanings: &Meanings, number: usize, k: u64) -> Step
    requires { Stand meanings.now.entries }
    ensures { StepsTo meanings.now.entries number k result }
{
    let Some(constant) = constant_numbered(meanings, number) else {
        return Step::At(None);
    };
    match &constant.value {
        Value::Small(operand) => Step::At(small_word(operand, k)),
        Value::Zeros => Step::At(zero_word(constant.cells, k)),
        Value::Parts(parts) => match find_part(meanings, parts, k) {
            Some((part, rest)) => Step::In(part, rest),
            None => Step::At(None),
        },
    }
}

/// The k-th word of the constant of this number.
fn word_numbered(meanings: &Meanings, number: usize, k: u64) -> Option<u32>
    requires { Stand meanings.now.entries }
    ensures { (table : Table) (ids : List ℕ) → StandFor table ids meanings.now.entries → result ≡ slice_get (words_numbered table number) k }
{
    let mut number = number;
    let mut k = k;
    'levels: loop {
        match descend(meanings, number, k) {
            Step::At(word) => return word,
            Step::In(part, rest) => {
                number = part as usize;
                k = rest;
            }
        }
    }
}

/// The k-th word of the constant that the id is.
pub fn word_at(meanings: &Meanings, id: u32, k: u32) -> Option<u32>
    requires { Stand meanings.now.entries }
    ensures { (table : Table) (ids : List ℕ) → StandFor table ids meanings.now.entries → result ≡ slice_get (words_at table id) k }
{
    match number_of(meanings, id) {
        Some(number) => word_numbered(meanings, number, u64::from(k)),
        None => None,
    }
}

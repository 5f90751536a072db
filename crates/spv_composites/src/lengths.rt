ghost use Rattle.std.specs.Prelude.{◌≡◌};
ghost use Rattle.spv_types.specs.Members.{length_of_word};
ghost use Rattle.spv_composites.specs.Lengths as lengths;

use spv_base::Id;
use spv_types::Tables;
use spv_typing::Kinds;

/// Whether a constant is of a signed type of integers.
fn is_signed(kinds: &Kinds, id: u32) -> bool
    ensures { result ≡ lengths.is_signed kinds.now id }
{
    kinds.definitions().word(kinds.type_of(id), 3) == 1
}

/// The length that a word is, read as signed or not: 0 where it is negative.
fn length_in_word(is_signed: bool, word: u32) -> u32
    ensures { result ≡ length_of_word is_signed word }
{
    if is_signed && word >= 1 << 31 {
        0
    } else {
        word
    }
}

/// The length that a word is, read as signed or not. None where it is below 1.
fn some_length(is_signed: bool, word: u32) -> Option<u32>
    ensures { result ≡ lengths.some_length is_signed word }
{
    let length = length_in_word(is_signed, word);
    if 1 <= length { Some(length) } else { None }
}

/// The first word of a constant that no specialisation changes. None of every other id.
fn first_known_word(tables: &Tables, id: u32) -> Option<u32>
    ensures { result ≡ lengths.first_known_word tables.now id }
{
    match Id::new(id) {
        Some(id) => tables.word(id, 0),
        None => None,
    }
}

/// The length of arrays that a constant is, where no specialisation changes it and it is at least 1. None of every
/// other id.
pub fn known_length(tables: &Tables, id: u32) -> Option<u32>
    ensures { result ≡ lengths.known_length tables.now id }
{
    match first_known_word(tables, id) {
        Some(word) => some_length(is_signed(tables.kinds(), id), word),
        None => None,
    }
}

/// Whether a constant is this length of arrays, and no specialisation changes it.
pub fn has_known_length(tables: &Tables, id: u32, n: usize) -> bool
    ensures { result ≡ lengths.has_known_length tables.now id n }
{
    match known_length(tables, id) {
        Some(length) => length as usize == n,
        None => false,
    }
}

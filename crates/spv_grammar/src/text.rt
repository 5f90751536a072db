ghost use Rattle.std.specs.Prelude.{◌≡◌, ◌<◌, ◌≤◌, length, position, IfSome};
ghost use Rattle.std.specs.List.{list_all};
ghost use Rattle.std.specs.Str.{is_utf8 as is_valid};
ghost use Rattle.spv_grammar.specs.Text.{has_zero_octet as has_zero, is_zero, text_words as words_of_text, is_text_octets as is_ended_text, is_set_name_octets as names_set, text_in};

use std::str::from_utf8;

/// The name of the extended instruction set that the profile has.
const SET_NAME: &str = "GLSL.std.450";

/// Whether an octet of the word is zero.
fn has_zero_octet(word: u32) -> bool
    ensures { result ≡ has_zero word }
{
    word.to_le_bytes().contains(&0)
}

/// The first word with an octet of zero.
fn last_word(words: &[u32]) -> Option<usize>
    ensures { result ≡ position has_zero words.now }
{
    words.iter().position(|word| has_zero_octet(*word))
}

/// The first octet of zero.
fn end_of_text(octets: &[u8]) -> Option<usize>
    ensures place { result ≡ position is_zero octets.now }
    ensures within { IfSome result (λ end. end < length octets.now) }
{
    octets.iter().position(|octet| *octet == 0)
}

fn is_padding(octets: &[u8]) -> bool
    ensures { result ≡ list_all is_zero octets.now }
{
    octets.iter().all(|octet| *octet == 0)
}

/// How many words the string in front has: up to the first word with an octet of zero, or all where none
/// has one.
pub fn text_words(words: &[u32]) -> usize
    ensures count { result ≡ words_of_text words.now }
    ensures within { result ≤ length words.now }
{
    match last_word(words) {
        Some(last) => last + 1,
        None => words.len(),
    }
}

fn is_utf8(octets: &[u8]) -> bool
    ensures { result ≡ is_valid octets.now }
{
    match from_utf8(octets) {
        Ok(_) => true,
        Err(_) => false,
    }
}

/// Whether octets are a string with its end and its padding: UTF-8 up to an octet of zero, and from there on
/// no other octet.
pub fn is_text(octets: &[u8]) -> bool
    ensures { result ≡ is_ended_text octets.now }
{
    match end_of_text(octets) {
        Some(end) => is_utf8(&octets[..end]) && is_padding(&octets[end..]),
        None => false,
    }
}

/// The octets before the first zero.
fn text_of(octets: &[u8]) -> &[u8]
    ensures { result.now ≡ text_in octets.now }
{
    match end_of_text(octets) {
        Some(end) => &octets[..end],
        None => octets,
    }
}

/// Whether the octets before the first zero name the extended instruction set of the profile.
pub fn is_set_name(octets: &[u8]) -> bool
    ensures { result ≡ names_set octets.now }
{
    text_of(octets) == SET_NAME.as_bytes()
}

// Operands by their words.
ghost use Rattle.std.specs.Prelude.{◌≡◌, ℕ, ◌<◌, ◌≤◌, List, [], ◌∷◌, ◌++◌, length, replicate, slice_index, slice_set};
ghost use Rattle.spv_value.specs.Words.{words_of, answered};

use spv_value::{Answered, Operand};

/// A word of a list, 0 past its end.
pub fn word_at(words: &[u32], index: usize) -> u32
    ensures { result ≡ slice_index words.now index }
{
    words.get(index).copied().unwrap_or(0)
}

/// An operand of these words.
#[tactic(auto, using(crate::proofs::Packing::padded_four), unfolding(spv_value::specs::Words::words_of))]
pub fn of_words(words: &[u32]) -> Operand
    requires { length words.now ≤ 4 }
    ensures { words_of result ≡ words.now }
{
    Operand {
        len: words.len() as u8,
        w0: word_at(words, 0),
        w1: word_at(words, 1),
        w2: word_at(words, 2),
        w3: word_at(words, 3),
    }
}

/// A scalar.
#[tactic(auto, unfolding(spv_value::specs::Words::words_of))]
pub fn of_word(word: u32) -> Operand
    ensures { words_of result ≡ word ∷ [] }
{
    Operand {
        len: 1,
        w0: word,
        w1: 0,
        w2: 0,
        w3: 0,
    }
}

/// So many zeros.
#[tactic(auto, using(crate::proofs::Packing::four_zeros), unfolding(spv_value::specs::Words::words_of))]
pub fn zeros(count: u8) -> Operand
    ensures { words_of result ≡ replicate count 0 }
{
    Operand {
        len: count,
        w0: 0,
        w1: 0,
        w2: 0,
        w3: 0,
    }
}

/// A component of a vector, counted from 0; 0 past its end.
#[tactic(auto, using(crate::proofs::Packing::component_of, crate::proofs::Packing::past_component))]
pub fn component(vector: &Operand, index: usize) -> u32
    ensures { result ≡ slice_index (words_of vector.now) index }
{
    if index >= usize::from(vector.len) {
        return 0;
    }
    match index {
        0 => vector.w0,
        1 => vector.w1,
        2 => vector.w2,
        3 => vector.w3,
        _ => 0,
    }
}

/// The vector with one component, counted from 0, another. An index past its end changes nothing.
#[tactic(auto, using(crate::proofs::Packing::set_component, crate::proofs::Packing::set_past_component), unfolding(spv_value::specs::Words::words_of))]
pub fn with_component(vector: &Operand, index: usize, word: u32) -> Operand
    requires { length (words_of vector.now) ≤ 4 }
    ensures { words_of result ≡ slice_set (words_of vector.now) index word }
{
    match index {
        0 => Operand {
            w0: word,
            ..*vector
        },
        1 => Operand {
            w1: word,
            ..*vector
        },
        2 => Operand {
            w2: word,
            ..*vector
        },
        3 => Operand {
            w3: word,
            ..*vector
        },
        _ => *vector,
    }
}

// The first four words of an answer, where it has no more.
#[tactic(auto, using(crate::proofs::Packing::padded_four), unfolding(spv_value::specs::Words::words_of, spv_value::specs::Words::answered))]
pub fn of_answer(answer: Answered) -> Operand
    ensures { (ws : List ℕ) → length ws ≤ 4 → answer ≡ answered ws → words_of result ≡ ws }
{
    Operand {
        len: answer.len,
        w0: answer.w0,
        w1: answer.w1,
        w2: answer.w2,
        w3: answer.w3,
    }
}

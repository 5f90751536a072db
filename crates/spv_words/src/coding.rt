ghost use Rattle.std.specs.Prelude.{◌≡◌, ◌*◌, ◌%◌, ◌^◌, ◌<◌, All, IfOk, length};
ghost use Rattle.spv_words.specs.Words.{HasHeader, Reads, bytes_of_words, header_of, words_by, words_in};

use crate::fault::WordsFault;
use byteorder::{BigEndian, ByteOrder, LittleEndian};
use spv_base::{ByteList, Header, MAGIC, NoMemory, Words};
use std::alloc::Global;

// The five words of a header, in bytes.
const HEADER_BYTES: usize = 20;

// The words of bytes in the byte order T.
fn read_words<T: ByteOrder>(alloc: Global, bytes: &[u8]) -> Result<Words, NoMemory>
    requires { length bytes.now % 4 ≡ 0 }
    ensures words { IfOk result (λ words. words ≡ words_by (T.number_of 4) bytes.now) }
    ensures fit { IfOk result (All (λ word. word < 2 ^ 32)) }
{
    let mut words = vec![in alloc; 0; bytes.len() / 4]?;
    T::read_u32_into(bytes, &mut words);
    Ok(Words::from_vec(words))
}

/// The words of a module that is given as bytes, in the byte order that its magic number tells.
///
/// The faults, in the order in which they are tried: `ShortInput` for fewer than 20 bytes, `OddLength` for a
/// length that is no multiple of 4, and `NotSpirv` where the first word is the magic number in neither byte
/// order (SPIR-V Specification, section 2.3).
#[tactic(auto, using(crate::proofs::WordLemmas::answers))]
pub fn words_of(alloc: Global, bytes: &[u8]) -> Result<Words, WordsFault>
    ensures answer { Reads bytes.now result }

    // What follows for words that were read.
    ensures header { IfOk result HasHeader }
    ensures count { IfOk result (λ words. length words * 4 ≡ length bytes.now) }
    ensures fit { IfOk result (All (λ word. word < 2 ^ 32)) }
{
    if bytes.len() < HEADER_BYTES {
        return Err(WordsFault::ShortInput);
    }
    if bytes.len() % 4 != 0 {
        return Err(WordsFault::OddLength);
    }
    if LittleEndian::read_u32(bytes) == MAGIC {
        return Ok(read_words::<LittleEndian>(alloc, bytes)?);
    }
    if BigEndian::read_u32(bytes) == MAGIC {
        return Ok(read_words::<BigEndian>(alloc, bytes)?);
    }
    Err(WordsFault::NotSpirv)
}

/// The bytes of words, each word as four bytes with the lowest first (little-endian).
#[tactic(auto, unfolding(crate::specs::Words::bytes_of_words))]
pub fn bytes_of(alloc: Global, words: &[u32]) -> Result<ByteList, NoMemory>
    ensures bytes { IfOk result (λ bytes. bytes ≡ bytes_of_words words.now) }
    ensures reads_back { IfOk result (λ bytes. HasHeader words.now → words_in bytes ≡ Ok words.now) }
{
    let mut bytes = vec![in alloc; 0; words.len() * 4]?;
    LittleEndian::write_u32_into(words, &mut bytes);
    Ok(ByteList::from_vec(bytes))
}

/// The header of a module: its words 1 to 4. It takes no memory.
///
/// `ShortInput` for fewer than five words, then `NotSpirv` where the first is not the magic number. There is
/// no other fault.
#[tactic(auto, unfolding(crate::specs::Words::header_of))]
pub fn header(words: &[u32]) -> Result<Header, WordsFault>
    ensures { result ≡ header_of words.now }
{
    let [magic, version, generator, bound, schema, ..] = words else {
        return Err(WordsFault::ShortInput);
    };
    if *magic != MAGIC {
        return Err(WordsFault::NotSpirv);
    }
    Ok(Header {
        version: *version,
        generator: *generator,
        bound: *bound,
        schema: *schema,
    })
}

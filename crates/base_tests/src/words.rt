use spv_base::Header;
use spv_words::{WordsFault, bytes_of, header, words_of};
use std::alloc::Global;
use std::test::Fail;
use test_texts::numbers;

// A header of SPIR-V 1.6 and an OpNop, as words and in both byte orders.
const WORDS: &str = "0x07230203 0x00010600 0x01020304 5 0 0x00010000";

const LITTLE: &str = "0x03 0x02 0x23 0x07 0 6 1 0 4 3 2 1 5 0 0 0 0 0 0 0 0 0 1 0";

const BIG: &str = "0x07 0x23 0x02 0x03 0 1 6 0 1 2 3 4 0 0 0 5 0 0 0 0 0 1 0 0";

/// Adds numbers to octets.
fn add(octets: &mut Vec<u8>, numbers: &[u32]) -> Result<(), Fail> {
    for number in numbers {
        octets.push(u8::try_from(*number)?)?;
    }
    Ok(())
}

/// The octets of a text.
fn octets(alloc: Global, text: &str) -> Result<Vec<u8>, Fail> {
    let numbers = numbers(alloc, text)?;
    let mut octets = Vec::new(alloc);
    add(&mut octets, &numbers)?;
    Ok(octets)
}

fn reads(alloc: Global, bytes: &[u8], words: &[u32]) -> Result<bool, Fail> {
    Ok(words_of(alloc, bytes)?.as_slice() == words)
}

fn writes(alloc: Global, words: &[u32], bytes: &[u8]) -> Result<bool, Fail> {
    Ok(bytes_of(alloc, words)?.as_slice() == bytes)
}

/// Whether the little-endian bytes are read, as many as make a header too, and written.
fn are_bytes(alloc: Global, bytes: &[u8], words: &[u32]) -> Result<bool, Fail> {
    let (Some(front), Some(header)) = (bytes.get(..20), words.get(..5)) else {
        return Ok(false);
    };
    Ok(reads(alloc, bytes, words)? && reads(alloc, front, header)? && writes(alloc, words, bytes)?)
}

#[test]
fn both_byte_orders_read_and_little_endian_is_written(rt: HostRuntime) -> Result<(), Fail> {
    let words = numbers(rt.alloc(), WORDS)?;
    let bytes = octets(rt.alloc(), LITTLE)?;
    assert!(rt; are_bytes(rt.alloc(), &bytes, &words)?);
    let bytes = octets(rt.alloc(), BIG)?;
    assert!(rt; reads(rt.alloc(), &bytes, &words)?);
    Ok(())
}

fn is_refused(alloc: Global, bytes: Option<&[u8]>, wanted: WordsFault) -> bool {
    match bytes {
        Some(bytes) => words_of(alloc, bytes).err() == Some(wanted),
        None => false,
    }
}

#[test]
fn bytes_are_refused_in_order(rt: HostRuntime) -> Result<(), Fail> {
    let little = octets(rt.alloc(), LITTLE)?;
    let zeros = [0; 21];
    for (bytes, fault) in [
        (little.get(..0), WordsFault::ShortInput),
        (little.get(..19), WordsFault::ShortInput),
        (little.get(..21), WordsFault::OddLength),
        (zeros.get(..21), WordsFault::OddLength),
        (zeros.get(..20), WordsFault::NotSpirv),
        (little.get(4..), WordsFault::NotSpirv),
    ] {
        assert!(rt; is_refused(rt.alloc(), bytes, fault), "{bytes:?}");
    }
    Ok(())
}

fn has_header(words: Option<&[u32]>, wanted: Result<Header, WordsFault>) -> bool {
    match words {
        Some(words) => header(words) == wanted,
        None => false,
    }
}

#[test]
fn a_header_is_five_words(rt: HostRuntime) -> Result<(), Fail> {
    let words = numbers(rt.alloc(), WORDS)?;
    let expected = Header {
        version: 0x0001_0600,
        generator: 0x0102_0304,
        bound: 5,
        schema: 0,
    };
    assert!(rt;
        has_header(words.get(..4), Err(WordsFault::ShortInput))
            && has_header(Some(&[0; 5]), Err(WordsFault::NotSpirv))
            && has_header(words.get(..5), Ok(expected))
            && has_header(words.get(..6), Ok(expected))
    );
    Ok(())
}

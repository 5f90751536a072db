use opt_outside::{CallKind, Memory};
use opt_top::opt;
use std::alloc::Global;
use std::rc::RcStr;
use std::test::Fail;
use test_texts::{Unread, framed};

/// A compute shader in which each invocation doubles one word of a buffer, with its bound to be told and without its
/// OpSource and its OpName, which stand at 23. Words 5 to 9 are its OpCapability and its OpMemoryModel.
const DOUBLING: &str = "
0x07230203 0x00010600 0 bound 0 0x00020011 1 0x0003000e 0 1 0x0007000f 5 1 0x6e69616d 0 2 3
0x00060010 1 17 64 1 1
|
0x00040047 2 11 28 0x00040047 3 34 0 0x00040047 3 33 0 0x00030047 4 2 0x00050048 4 0 35 0
0x00040047 5 6 4 0x00020013 6 0x00030021 7 6 0x00040015 8 32 0 0x00040017 9 8 3 0x00040020 10 1 9
0x0003001d 5 8 0x0003001e 4 5 0x00040020 11 12 4 0x00040020 12 12 8 0x00040020 13 1 8
0x0004002b 8 14 0 0x0004002b 8 15 2 0x0004003b 10 2 1 0x0004003b 11 3 12 0x00050036 6 1 0 7
0x000200f8 16 0x00050041 13 17 2 14 0x0004003d 8 18 17 0x00060041 12 19 3 14 18 0x0004003d 8 20 19
0x00050084 8 21 20 15 0x0003003e 19 21 0x000100fd 0x00010038
";

/// The OpSource and the OpName of the shader. With them word 131 begins its OpIMul.
const SOURCE_AND_NAME: &str = "0x00030003 2 450 0x00040005 1 0x6e69616d 0";

/// The most bytes of an input.
const MOST_BYTES: usize = 4_194_304;

/// The words of the shader, under the bound that a text tells.
pub(crate) fn doubling(alloc: Global, bound: &str) -> Result<Vec<u32>, Unread> {
    framed(alloc, bound, DOUBLING, SOURCE_AND_NAME)
}

/// The octets of words, the greatest first where `big`, else the least.
pub(crate) fn encoded(alloc: Global, words: &[u32], big: bool) -> Result<Vec<u8>, Fail> {
    let mut bytes = Vec::new(alloc);
    for word in words {
        let octets = if big {
            word.to_be_bytes()
        } else {
            word.to_le_bytes()
        };
        bytes.extend_from_slice(&octets)?;
    }
    Ok(bytes)
}

/// The words of a command, which a text splits by blanks.
fn command(alloc: Global, words: &str) -> Result<Vec<RcStr>, Fail> {
    let mut texts = Vec::new(alloc);
    for word in words.split_ascii_whitespace() {
        texts.push(RcStr::from_str(alloc, word)?)?;
    }
    Ok(texts)
}

/// Strips the file `in` of a memory to its output, and says whether the run ends with this status and message.
pub(crate) fn ends(
    alloc: Global,
    memory: &mut Memory,
    number: u8,
    message: &str,
) -> Result<bool, Fail> {
    let words = command(alloc, "--strip-debug in -o out")?;
    let status = opt(alloc, words.as_slice(), memory);
    Ok(status.number() == number && memory.told() == message.as_bytes())
}

/// A memory that holds one file under the name `in`.
pub(crate) fn with_input(alloc: Global, chunk: u32, bytes: &[u8]) -> Result<Memory, Fail> {
    let mut memory = Memory::new(alloc, chunk.max(1));
    memory.add("in", bytes)?;
    Ok(memory)
}

/// Whether the shader is stripped, where its bytes are in this order and each call moves at most so many of them.
fn is_stripped(alloc: Global, big: bool, chunk: u32) -> Result<bool, Fail> {
    let shader = doubling(alloc, "bound = 22")?;
    let shader = encoded(alloc, shader.as_slice(), big)?;
    let mut memory = with_input(alloc, chunk, shader.as_slice())?;
    let is_done = ends(alloc, &mut memory, 0, "")?;
    let output = framed(alloc, "bound = 22", DOUBLING, "")?;
    let output = encoded(alloc, output.as_slice(), false)?;
    Ok(is_done && memory.opened() && memory.written() == output.as_slice() && output.len() == 536)
}

/// Whether a run over the shader, by 100 bytes a call, ends with this status and message where one call fails.
fn ends_where_fails(
    alloc: Global,
    kind: CallKind,
    nth: u32,
    number: u8,
    message: &str,
) -> Result<bool, Fail> {
    let shader = doubling(alloc, "bound = 22")?;
    let shader = encoded(alloc, shader.as_slice(), false)?;
    let mut memory = with_input(alloc, 100, shader.as_slice())?;
    memory.fail(kind, nth)?;
    ends(alloc, &mut memory, number, message)
}

#[test]
fn the_shader_is_stripped_in_pieces_of_each_size(rt: HostRuntime) -> Result<(), Fail> {
    for chunk in [1, 3, 4, 1000] {
        assert!(rt; is_stripped(rt.alloc(), false, chunk)?, "by {chunk}");
        assert!(rt;
            is_stripped(rt.alloc(), true, chunk)?,
            "by {chunk}, the greatest first"
        );
    }
    Ok(())
}

#[test]
fn each_call_that_fails_is_told(rt: HostRuntime) -> Result<(), Fail> {
    // With 564 bytes to read and 536 to write by 100, and one call that finds the input's end.
    for nth in 1..8 {
        let told = ends_where_fails(rt.alloc(), CallKind::Read, nth, 3, "error: read fault\n")?;
        assert!(rt; told, "read {nth}");
    }
    for nth in 1..7 {
        let told = ends_where_fails(rt.alloc(), CallKind::Write, nth, 4, "error: write fault\n")?;
        assert!(rt; told, "write {nth}");
    }
    Ok(())
}

#[test]
fn an_opening_that_fails_is_told(rt: HostRuntime) -> Result<(), Fail> {
    let alloc = rt.alloc();
    assert!(rt; ends_where_fails(alloc, CallKind::OpenInput, 1, 3, "error: read fault\n")?);
    assert!(rt; ends_where_fails(alloc, CallKind::OpenOutput, 1, 4, "error: write fault\n")?);
    let mut empty = Memory::new(alloc, 100);
    assert!(rt; ends(alloc, &mut empty, 3, "error: read fault\n")?);
    Ok(())
}

#[test]
fn a_call_that_is_never_made_cannot_fail(rt: HostRuntime) -> Result<(), Fail> {
    for (kind, nth) in [
        (CallKind::OpenInput, 2),
        (CallKind::Read, 8),
        (CallKind::OpenOutput, 2),
        (CallKind::Write, 7),
    ] {
        assert!(rt;
            ends_where_fails(rt.alloc(), kind, nth, 0, "")?,
            "call {nth}"
        );
    }
    Ok(())
}

/// Whether these words of a command are no job, and nothing is asked.
fn is_no_job(alloc: Global, words: &str) -> Result<bool, Fail> {
    let mut memory = with_input(alloc, 100, b"")?;
    let words = command(alloc, words)?;
    let status = opt(alloc, words.as_slice(), &mut memory);
    Ok(
        status.number() == 2
            && memory.told() == b"error: usage: NotYet\n".as_slice()
            && memory.asked().is_empty(),
    )
}

/// Whether so many zeros end with this status and message.
fn zeros_end(alloc: Global, length: usize, number: u8, message: &str) -> Result<bool, Fail> {
    let zeros = vec![in alloc; 0; length]?;
    let mut memory = with_input(alloc, 65536, zeros.as_slice())?;
    ends(alloc, &mut memory, number, message)
}

#[test]
fn what_is_no_shader_is_told(rt: HostRuntime) -> Result<(), Fail> {
    let alloc = rt.alloc();
    assert!(rt; is_no_job(alloc, "")?);
    assert!(rt; is_no_job(alloc, "-O in -o out")?);
    assert!(rt; is_no_job(alloc, "--strip-debug in -o")?);
    assert!(rt; zeros_end(alloc, MOST_BYTES, 1, "error: 003 NotSpirv at word 0\n")?);
    assert!(rt; zeros_end(alloc, MOST_BYTES + 1, 5, "error: limit 900\n")?);
    Ok(())
}

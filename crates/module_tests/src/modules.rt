ghost use Rattle.std.specs.Prelude.{◌≡◌, ◌<◌, ◌^◌, true, length};
ghost use Rattle.spv_words.specs.Words.{HasHeader};

use spv_base::{Fault, Id, MAGIC};
use spv_module::{Flat, Inst, View, decode, encode};
use std::alloc::Global;
use std::test::Fail;
use test_texts::{case, number, numbers};

// A compute shader that doubles each number of a buffer: one block, 21 ids.
const DOUBLING: &str = "
0x07230203 0x00010600 0 0x16 0
0x00020011 1
0x0003000e 0 1
0x0007000f 5 1 0x6e69616d 0 2 3
0x00060010 1 0x11 0x40 1 1
0x00030003 2 0x1c2
0x00040005 1 0x6e69616d 0
0x00040047 2 0xb 0x1c
0x00040047 3 0x22 0
0x00040047 3 0x21 0
0x00030047 4 2
0x00050048 4 0 0x23 0
0x00040047 5 6 4
0x00020013 6
0x00030021 7 6
0x00040015 8 0x20 0
0x00040017 9 8 3
0x00040020 0xa 1 9
0x0003001d 5 8
0x0003001e 4 5
0x00040020 0xb 0xc 4
0x00040020 0xc 0xc 8
0x00040020 0xd 1 8
0x0004002b 8 0xe 0
0x0004002b 8 0xf 2
0x0004003b 0xa 2 1
0x0004003b 0xb 3 0xc
0x00050036 6 1 0 7
0x000200f8 0x10
0x00050041 0xd 0x11 2 0xe
0x0004003d 8 0x12 0x11
0x00060041 0xc 0x13 3 0xe 0x12
0x0004003d 8 0x14 0x13
0x00050084 8 0x15 0x14 0xf
0x0003003e 0x13 0x15
0x000100fd
0x00010038
";

/// Adds pieces of words to others, each from its first word up to its end, one after the other.
fn add_pieces(words: &mut Vec<u32>, whole: &[u32], pieces: &[u32]) -> Result<(), Fail> {
    for piece in pieces.chunks(2) {
        let [start, end] = piece else {
            return Err(Fail::from("a start and an end"));
        };
        let piece = whole.get(*start as usize..*end as usize).ok_or("a piece")?;
        words.extend_from_slice(piece)?;
    }
    Ok(())
}

/// Changes words: the place of each, and what stands there from then on.
fn change(words: &mut Vec<u32>, changes: &[u32]) -> Result<(), Fail> {
    for change in changes.chunks(2) {
        let [place, word] = change else {
            return Err(Fail::from("a place and a word"));
        };
        *words.get_mut(*place as usize).ok_or("a place")? = *word;
    }
    Ok(())
}

/// Adds the pieces of the shader that a text tells.
fn add_told(alloc: Global, words: &mut Vec<u32>, pieces: &str) -> Result<(), Fail> {
    let whole = numbers(alloc, DOUBLING)?;
    let pieces = numbers(alloc, pieces)?;
    add_pieces(words, &whole, &pieces)
}

/// Makes the changes that a text tells.
fn change_as_told(alloc: Global, words: &mut Vec<u32>, changes: &str) -> Result<(), Fail> {
    let changes = numbers(alloc, changes)?;
    change(words, &changes)
}

/// The words of a case: pieces of the shader, and behind a `:` what is changed in them.
fn words_of(alloc: Global, given: &str) -> Result<Vec<u32>, Fail> {
    let (pieces, changes) = given.split_once(':').ok_or("pieces and changes")?;
    let mut words = Vec::new(alloc);
    add_told(alloc, &mut words, pieces)?;
    change_as_told(alloc, &mut words, changes)?;
    Ok(words)
}

fn has_header(words: &[u32]) -> bool
    ensures { result ≡ true → HasHeader words.now × (length words.now < 2 ^ 32) }
{
    words.len() >= 5 && words.len() < 1000 && words[0] == MAGIC
}

/// The module of words.
fn read(alloc: Global, words: &[u32]) -> Option<Result<Flat, Fault>> {
    if has_header(words) {
        return Some(decode(alloc, words));
    }
    None
}

/// What reading words as a module answers: that it is admitted, or the rule and the place of a word.
fn answer_to(alloc: Global, words: &[u32]) -> Result<String, Fail> {
    let answer = match read(alloc, words) {
        Some(Ok(_)) => format!(in alloc; "admitted")?,
        Some(Err(Fault::Refused(refusal))) => format!(in alloc; "{} {}", refusal.rule, refusal.at)?,
        _ => format!(in alloc; "other")?,
    };
    Ok(answer)
}

/// The module of the shader.
fn shader(alloc: Global) -> Result<Flat, Fail> {
    let words = numbers(alloc, DOUBLING)?;
    let read = read(alloc, words.as_slice()).ok_or("a header")?;
    Ok(read?)
}

fn add_id(alloc: Global, parts: &mut String, id: Option<Id>) -> Result<(), Fail> {
    let told = match id {
        Some(id) => format!(in alloc; " {}", id.number())?,
        None => format!(in alloc; " none")?,
    };
    parts.push_str(&told)?;
    Ok(())
}

fn add_operand(alloc: Global, parts: &mut String, operand: u32, is_id: bool) -> Result<(), Fail> {
    let mark = if is_id { "%" } else { "" };
    let told = format!(in alloc; " {mark}{operand}")?;
    parts.push_str(&told)?;
    Ok(())
}

/// The parts of an instruction: its opcode, the ids of its type and its result where it has them, and its operands, ids
/// with a `%` before them.
fn parts(alloc: Global, inst: &View) -> Result<String, Fail> {
    let mut parts = format!(in alloc; "{}", inst.opcode())?;
    add_id(alloc, &mut parts, inst.result_type())?;
    add_id(alloc, &mut parts, inst.result())?;
    for k in 0..inst.operands() {
        add_operand(alloc, &mut parts, inst.operand(k), inst.is_id(k))?;
    }
    Ok(parts)
}

/// Whether a module has these words.
fn has_words(alloc: Global, flat: &Flat, wanted: &[u32]) -> Result<bool, Fail> {
    Ok(encode(alloc, flat)?.as_slice() == wanted)
}

#[test]
fn the_shader_is_read_and_written(rt: HostRuntime) -> Result<(), Fail> {
    let words = numbers(rt.alloc(), DOUBLING)?;
    let flat = shader(rt.alloc())?;
    assert!(rt; flat.count() == 36 && flat.functions() == 1 && flat.header().bound == 22);
    assert!(rt; has_words(rt.alloc(), &flat, &words)?);
    Ok(())
}

/// The number of an instruction; its offset, its section and its parts.
const PARTS: &str = "
0 = 5 1 17 none none 1 ; OpCapability Shader
3 = 17 5 16 none none %1 17 64 1 1 ; OpExecutionMode %1 LocalSize 64 1 1
22 = 89 10 43 8 14 0 ; %14 = OpConstant %8 0
27 = 110 11 248 none 16 ; %16 = OpLabel
32 = 131 11 132 8 21 %20 %15 ; %21 = OpIMul %8 %20 %15
35 = 140 11 56 none none ; OpFunctionEnd
";

/// Whether the instruction of a number has this offset, section and parts.
fn is_there(alloc: Global, flat: &Flat, k: u32, wanted: &str) -> Result<bool, Fail> {
    if k >= flat.count() {
        return Ok(false);
    }
    let inst = flat.at(k);
    let parts = parts(alloc, &inst)?;
    let told = format!(in alloc; "{} {} {parts}", inst.offset, flat.section(k))?;
    Ok(told.as_str() == wanted)
}

#[test]
fn instructions_have_their_parts(rt: HostRuntime) -> Result<(), Fail> {
    let flat = shader(rt.alloc())?;
    for line in PARTS.lines() {
        if let Some((k, wanted)) = case(line)? {
            assert!(rt; is_there(rt.alloc(), &flat, number(k)?, wanted)?, "{line}");
        }
    }
    Ok(())
}

/// Whether an instruction is the multiplication of the shader, at the beginning.
fn is_multiplication(inst: &Inst) -> bool {
    let view = inst.view();
    inst.offset == 0
        && inst.opcode() == 132
        && inst.result_type().is_some_and(|id| id.number() == 8)
        && inst.result().is_some_and(|id| id.number() == 21)
        && inst.operands() == 2
        && inst.operand(0) == 20
        && inst.operand(1) == 15
        && inst.is_id(1)
        && view.offset == 0
        && view.words == [0x0005_0084, 8, 21, 20, 15].as_slice()
}

#[test]
fn a_copy_of_a_multiplication_is_read_as_the_first(rt: HostRuntime) -> Result<(), Fail> {
    let flat = shader(rt.alloc())?;
    assert!(rt; flat.count() == 36);
    let inst = Inst::new(rt.alloc(), flat.at(32).words)?;
    assert!(rt; is_multiplication(&inst));
    Ok(())
}

/// Pieces of the shader's 141 words, each from its first word up to its end; behind the `:` changes, each the place of a
/// word and the word; and what reading them answers.
const CASES: &str = "
; The header.
0 141 : = admitted ; as it is
0 141 : 1 0x00010500 = 101 1 ; version 1.5
0 141 : 4 1 = 102 4 ; schema 1
0 141 : 3 0 = 103 3 ; bound 0
0 141 : 3 4194304 = 103 3 ; a bound that is too large
0 141 : 3 4194303 = admitted ; the largest bound
0 141 : 1 0  3 0 = 101 1 ; version and bound
0 141 : 3 0  4 1 = 103 3 ; bound and schema
0 141 : 4 1  6 2 = 102 4 ; schema and the first instruction
; Instructions.
0 141 : 3 21 = 103 131 ; an id at the bound
0 141 : 137 0 = 103 136 ; id 0
0 141 : 110 0xf8 = 104 110 ; word count 0
0 138 : = 105 136 ; cut within OpStore
0 141 : 131 0x000503e7 = 106 131 ; opcode 999
0 141 : 93 0x00040034  96 999 = 106 93 ; OpSpecConstantOp of opcode 999
0 141 : 93 0x00040034  96 52 = 106 93 ; OpSpecConstantOp of itself
0 141 : 93 0x00040034  96 132 = 107 93 ; OpSpecConstantOp of OpIMul without operands
0 141 : 56 0x00030013 = 107 56 ; OpTypeVoid with a word too many
0 141 : 29 0x6e69616d = 108 26 ; a name without an octet of zero
0 141 : 29 0x01000000 = 108 26 ; a name that is padded with another octet
0 141 : 28 0x6e6961ff = 108 26 ; a name that is not UTF-8
0 141 : 29 0x00000061 = admitted ; a name of five octets
0 141 : 6 2 = 109 5 ; an unknown capability
0 141 : 32 99 = 109 30 ; an unknown decoration
0 141 : 108 0x10 = 109 105 ; an unknown bit of a mask
; Of two broken rules the first is answered.
0 141 : 31 0  32 99 = 103 30 ; an id and a decoration of one instruction
0 141 : 27 0  29 0x01000000 = 108 26 ; a name that is looked at no further than its octets
0 141 : 131 0x00040084 = 107 131 ; too few operands, and a word count 0 behind them
0 141 : 6 2  131 0x000503e7 = 109 5 ; a higher rule in front of a lower one
0 141 : 108 0x10  110 0xf8 = 109 105 ; a rule in front of word count 0
0 141 : 110 0xf8  131 0x000503e7 = 104 110 ; a rule behind word count 0
0 5  7 10  5 7  10 141 : 131 0x000503e7 = 106 131 ; the layout, and an opcode behind it
0 5  10 141 : = 202 5 ; capability and memory model missing
0 7  17 141 : = 203 5 ; memory model and entry point missing
0 5  7 10  5 7  17 141 : = 204 5 ; entry point missing, and the order of sections
0 17  7 10  17 141 : = 201 17 ; a second memory model behind its section
0 141  110 112 : = 205 141 ; OpLabel behind the functions, and the end inside
; Layouts.
0 5  7 10  5 7  10 141 : = 201 8 ; the capability behind the memory model
0 141  59 63 : = 201 141 ; a type behind the functions
0 5 : = 202 5 ; the header alone
0 5  7 141 : = 202 5 ; no capability
0 7  10 141 : = 203 5 ; no memory model
0 10  7 141 : = 203 10 ; a second memory model
0 10  17 141 : = 204 5 ; no entry point
0 5  5 9  5 141 : 5 0x00040008  6 1  7 1  8 1 = admitted ; a line mark in front of the capability
; Functions out of shape.
0 110  105 141 : = 205 110 ; OpFunction inside a function
0 110  136 139  110 141 : 110 0x00030037 = admitted ; a parameter behind OpFunction
0 112  136 139  112 141 : 112 0x00030037 = 205 112 ; a parameter behind OpLabel
0 141  136 139 : 141 0x00030037 = 205 141 ; a parameter behind the functions
0 110  112 141 : = 205 110 ; no OpLabel
0 140  136 139  140 141 : = 205 140 ; OpStore behind the end of its block
0 141  97 101 : = 205 141 ; OpVariable behind the functions
0 141  140 141 : = 205 141 ; OpFunctionEnd outside a function
0 110  140 141 : = 205 110 ; OpFunctionEnd of a function without a block
0 140 : = 205 140 ; no OpFunctionEnd
0 110  5 9  110 141 : 110 0x00040008  111 1  112 1  113 1 = admitted ; a line mark between OpFunction and OpLabel
0 140  139 141 : 140 0x0001013d = admitted ; the end of line marks behind a block
";

/// Whether reading the words of a case answers this.
fn is_answered(alloc: Global, given: &str, wanted: &str) -> Result<bool, Fail> {
    let words = words_of(alloc, given)?;
    Ok(answer_to(alloc, &words)?.as_str() == wanted)
}

#[test]
fn the_first_broken_rule_is_answered(rt: HostRuntime) -> Result<(), Fail> {
    for line in CASES.lines() {
        if let Some((given, wanted)) = case(line)? {
            assert!(rt; is_answered(rt.alloc(), given, wanted)?, "{line}");
        }
    }
    Ok(())
}

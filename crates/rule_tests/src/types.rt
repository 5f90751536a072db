use crate::modules::module;
use spv_base::Id;
use spv_types::{ConstKind, Tables, tables};
use std::alloc::Global;
use std::test::Fail;
use test_texts::{Table, Tells, Unread, first_wrong, rule};

/// Behind the module a case has what is asked of an id.
const FRAME: &str = "
; The header; OpCapability Shader; OpMemoryModel Logical GLSL450; OpEntryPoint GLCompute %1 main.
0x07230203 0x00010600 0 40 0 0x00020011 1 0x0003000e 0 1 0x0005000f 5 1 0x6e69616d 0
; %14 has the SpecId 7.
0x00040047 14 1 7
; %2 void; %3 function; %4 uint. Constants: %5 is 3, %6 is 2, %13 is 4, %23 is 2^31.
0x00020013 2 0x00030021 3 2 0x00040015 4 32 0 0x0004002b 4 5 3 0x0004002b 4 6 2 0x0004002b 4 13 4
0x0004002b 4 23 0x80000000
; %14 is 9 or given; %15 is 8, by OpSpecConstant; %16 is the sum of %14 and %5.
0x00040032 4 14 9 0x00040032 4 15 8 0x00060034 4 16 128 14 5
; %7 vector of 3 uint; %8 array of 2 of these; %9 of 3 of these; %10 struct of uint and that.
0x00040017 7 4 3 0x0004001c 8 7 6 0x0004001c 9 8 5 0x0004001e 10 4 9
; %11 runtime array of uint; %12 struct of uint and that; %28 array of %14 uint.
0x0003001d 11 4 0x0004001e 12 4 11 0x0004001c 28 4 14
; Arrays: %24 of 2^31 uint; %25 of 2^31 of these; %26 and %27 of 3 and 4 of these.
0x0004001c 24 4 23 0x0004001c 25 24 23 0x0004001c 26 25 5 0x0004001c 27 25 13
; %17 is the vector 3 2 4; %18 is two of these; %19 zeros of the struct; %20 an undefined uint.
0x0006002c 7 17 5 6 13 0x0005002c 8 18 17 17 0x0003002e 10 19 0x00030001 4 20
; %21 pointer of Private to uint; %22 variable.
0x00040020 21 6 4 0x0004003b 21 22 6
; OpFunction %1; OpLabel %29; OpReturn; OpFunctionEnd.
0x00050036 2 1 0 3 0x000200f8 29 0x000100fd 0x00010038
|
";

/// What may be asked, and the kinds of constants.
const NAMES: &str = "
kind = 1
word = 2
cells = 3
notconstant = 1
known = 2
specialised = 3
";

/// The kind of a constant; the word of a constant with a number, if there is one; how many words a value of a type has, if
/// it has so many, the lower half in front of the upper half.
const CASES: &str = "
kind 5 = known
kind 14 = specialised
kind 15 = known
kind 16 = specialised
kind 18 = known
kind 20 = known
kind 4 = notconstant
kind 22 = notconstant
kind 39 = notconstant
word 5 0 = 3
word 5 1 =
word 14 0 =
word 15 0 = 8
word 18 4 = 2
word 18 5 = 4
word 18 6 =
word 19 18 = 0
word 19 19 =
word 20 0 = 0
word 22 0 =
cells 4 = 1 0
cells 7 = 3 0
cells 9 = 18 0
cells 10 = 19 0
cells 11 =
cells 12 = 1 0
cells 28 = 9 0
cells 26 = 0 0xc0000000
cells 27 =
cells 2 =
cells 21 =
cells 5 =
";

/// The number of a kind of constants.
fn kind_number(kind: ConstKind) -> u32 {
    match kind {
        ConstKind::NotConstant => 1,
        ConstKind::Known => 2,
        ConstKind::Specialised => 3,
    }
}

/// Adds what is told of an id.
fn add_answer(told: &mut Vec<u32>, found: &Tables, asked: &[u32], id: Id) -> Result<(), Unread> {
    match asked {
        [1, _] => told.push(kind_number(found.constant(id)))?,
        [2, _, k] => {
            if let Some(word) = found.word(id, *k) {
                told.push(word)?;
            }
        }
        [3, _] => {
            if let Some(cells) = found.cells(id) {
                told.push((cells % 0x1_0000_0000).min(0xffff_ffff) as u32)?;
                told.push((cells / 0x1_0000_0000).min(0xffff_ffff) as u32)?;
            }
        }
        _ => told.push(u32::MAX)?,
    }
    Ok(())
}

/// How many words the module has.
const LENGTH: usize = 135;

/// What is told of an id, in front of what is asked, by the tables of a module; a word that no case wants where there is
/// none.
fn told(alloc: Global, words: &[u32]) -> Result<Vec<u32>, Unread> {
    let mut told = Vec::new(alloc);
    let (words, asked) = words.split_at(LENGTH.min(words.len()));
    let number = asked.get(1).copied().unwrap_or(0);
    let Some(flat) = module(alloc, words) else {
        return rule(alloc, Some(u16::MAX));
    };
    let Some(id) = Id::new(number) else {
        return rule(alloc, Some(u16::MAX));
    };
    match tables(alloc, &flat) {
        Ok(found) => add_answer(&mut told, &found, asked, id)?,
        Err(_) => return Err(Unread::NoMemory),
    }
    Ok(told)
}

/// The tables of a module.
struct Lookup;

impl Tells for Lookup {
    fn tell(&self, alloc: Global, words: &[u32]) -> Result<Vec<u32>, Unread> {
        told(alloc, words)
    }
}

#[test]
fn ids_are_looked_up(rt: HostRuntime) -> Result<(), Fail> {
    let table = Table {
        names: NAMES,
        frame: FRAME,
        cases: CASES,
    };
    let wrong = first_wrong(rt.alloc(), &Lookup, &table)?;
    assert!(rt; wrong.is_none(), "{wrong:?}");
    Ok(())
}

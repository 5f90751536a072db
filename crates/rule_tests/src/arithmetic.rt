use crate::modules::module;
use spv_arithmetic::broken_arithmetic_rule;
use spv_module::NoMemory;
use spv_typing::Kinds;
use std::alloc::Global;
use std::test::Fail;
use test_texts::{Table, Tells, Unread, first_wrong, rule};

/// The header; OpCapability Shader; %2 = OpExtInstImport GLSL.std.450; OpMemoryModel Logical GLSL450;
/// OpEntryPoint GLCompute %1 main.
///
/// %3 = OpTypeVoid; %4 = OpTypeBool; %5 = OpTypeInt 32 0; %6 = OpTypeInt 32 1; %7 = OpTypeVector %5 3;
/// %8 = OpTypeVector %4 3; %9 = OpTypeVector %5 2; %10 = OpTypeStruct %5 %5; %11 = OpTypeStruct %7 %7;
/// %12 = OpTypeStruct %5 %5 %5; %13 = OpTypeStruct %5 %6; %14 = OpTypePointer Function %5;
/// %15 = OpTypeFunction %3; %16 = OpConstantNull %4; %17 = OpConstantNull %5; %18 = OpConstantNull %6;
/// %19 = OpConstantNull %7; %20 = OpConstantNull %8; %21 = OpConstantNull %10; %22 = OpConstantNull %9.
///
/// %1 = OpFunction %3 None %15; %23 = OpLabel; %24 = OpVariable %14 Function.
/// The instruction that a case gives, which is judged; OpReturn; OpFunctionEnd.
const FRAME: &str = "
0x07230203 0x00010600 0 32 0 0x00020011 1 0x0006000b 2 0x4c534c47 0x6474732e 0x3035342e 0
0x0003000e 0 1 0x0005000f 5 1 0x6e69616d 0 0x00020013 3 0x00020014 4 0x00040015 5 32 0
0x00040015 6 32 1 0x00040017 7 5 3 0x00040017 8 4 3 0x00040017 9 5 2 0x0004001e 10 5 5
0x0004001e 11 7 7 0x0005001e 12 5 5 5 0x0004001e 13 5 6 0x00040020 14 7 5 0x00030021 15 3
0x0003002e 4 16 0x0003002e 5 17 0x0003002e 6 18 0x0003002e 7 19 0x0003002e 8 20 0x0003002e 10 21
0x0003002e 9 22 0x00050036 3 1 0 15 0x000200f8 23 0x0004003b 14 24 7
|
0x000100fd 0x00010038
";

/// How many instructions stand before the one that is judged.
const FRONT_COUNT: u32 = 27;

/// The rule that the instruction behind the front breaks; 1 where there is no such module.
fn broken(alloc: Global, words: &[u32]) -> Result<Option<u16>, NoMemory> {
    let Some(flat) = module(alloc, words) else {
        return Ok(Some(1));
    };
    if flat.count() <= FRONT_COUNT {
        return Ok(Some(1));
    }
    let kinds = Kinds::of(alloc, &flat)?;
    Ok(broken_arithmetic_rule(&kinds, &flat.at(FRONT_COUNT)))
}

/// The rules on operands and results that are values.
struct Arithmetic;

impl Tells for Arithmetic {
    fn tell(&self, alloc: Global, words: &[u32]) -> Result<Vec<u32>, Unread> {
        match broken(alloc, words) {
            Ok(broken) => rule(alloc, broken),
            Err(_) => Err(Unread::NoMemory),
        }
    }
}

// Each line of cases is an instruction, with the label of a block behind it where it ends one; behind the `=` the rule
// that it breaks, or 0 where it breaks none: 501 OperandType, 502 ResultType.

const INTEGERS: &str = "
0x0004007e 5 30 17 = 0 ; the negation of an integer
0x000400c8 7 30 19 = 0 ; the complement of a vector
0x000400cc 5 30 16 = 501 ; the bits of a boolean in reverse
0x000400cd 9 30 19 = 502 ; the bits of three integers counted as two
0x0004007c 6 30 17 = 0 ; an integer as a signed one
0x0004007c 4 30 16 = 501 ; a boolean as a boolean
0x0004007e 5 30 24 = 501 ; the negation of a pointer
0x0004007e 5 30 5 = 501 ; the negation of a type
0x0004007e 5 30 1 = 501 ; the negation of a function
0x0004007e 5 30 23 = 501 ; the negation of a label
0x00050080 6 30 17 18 = 0 ; a sum of an unsigned and a signed integer
0x00050080 5 30 17 19 = 501 ; a sum of an integer and a vector
0x00050080 7 30 19 17 = 501 ; a sum of a vector and an integer
0x00050080 4 30 17 17 = 502 ; a sum that is a boolean
0x00050080 5 30 17 21 = 501 ; a sum with a struct
0x000500c4 7 30 19 19 = 0 ; a shift of a vector
0x000500c4 7 30 19 17 = 501 ; a shift of a vector by an integer
0x000500c7 4 30 16 16 = 501 ; both of two booleans, bit by bit
";

#[test]
fn integers_are_judged(rt: HostRuntime) -> Result<(), Fail> {
    let table = Table {
        names: "",
        frame: FRAME,
        cases: INTEGERS,
    };
    let wrong = first_wrong(rt.alloc(), &Arithmetic, &table)?;
    assert!(rt; wrong.is_none(), "{wrong:?}");
    Ok(())
}

const PAIRS_AND_FIELDS: &str = "
0x00050095 10 30 17 17 = 0 ; a sum and its carry
0x00050095 11 30 19 19 = 0 ; sums and their carries
0x00050096 10 30 17 18 = 501 ; a difference of an unsigned and a signed integer, and its borrow
0x00050096 10 30 16 16 = 501 ; a difference of booleans and its borrow
0x00050096 5 30 17 17 = 502 ; a difference without its borrow
0x00050097 11 30 17 17 = 502 ; a product of integers as halves that are vectors
0x00050097 12 30 17 17 = 502 ; a product in three parts
0x00050098 13 30 17 17 = 502 ; a product in two parts of two types
0x000700c9 7 30 19 19 17 18 = 0 ; a field put into a vector
0x000700c9 7 30 19 19 19 17 = 501 ; a field put at three places
0x000700c9 7 30 19 17 17 17 = 501 ; a field of an integer put into a vector
0x000700c9 5 30 19 19 17 17 = 502 ; a field put into a vector that is an integer
0x000600ca 6 30 17 17 18 = 0 ; a field of an integer
0x000600ca 5 30 16 17 17 = 501 ; a field of a boolean
0x000600cb 7 30 19 17 16 = 501 ; a field of a boolean number of bits
0x000600cb 9 30 19 17 17 = 502 ; a field of three integers in two
";

#[test]
fn pairs_and_fields_are_judged(rt: HostRuntime) -> Result<(), Fail> {
    let table = Table {
        names: "",
        frame: FRAME,
        cases: PAIRS_AND_FIELDS,
    };
    let wrong = first_wrong(rt.alloc(), &Arithmetic, &table)?;
    assert!(rt; wrong.is_none(), "{wrong:?}");
    Ok(())
}

const BOOLEANS: &str = "
0x0004009a 4 30 20 = 0 ; any of three booleans
0x0004009b 4 30 16 = 501 ; all of one boolean
0x0004009b 4 30 19 = 501 ; all of three integers
0x0004009a 8 30 20 = 502 ; any of three booleans as three
0x000400a8 8 30 20 = 0 ; the negations of three booleans
0x000400a8 4 30 17 = 501 ; the logical negation of an integer
0x000400a8 4 30 20 = 502 ; the negations of three booleans as one
0x000500a7 4 30 16 16 = 0 ; both of two booleans
0x000500a4 8 30 20 16 = 501 ; the equality of three booleans and one
0x000500a6 5 30 16 16 = 502 ; either of two booleans as an integer
0x000500aa 4 30 17 18 = 0 ; the equality of an unsigned and a signed integer
0x000500b3 8 30 19 19 = 0 ; three comparisons
0x000500ab 4 30 16 16 = 501 ; the inequality of two booleans
0x000500ac 4 30 19 19 = 502 ; three comparisons as one
0x000500b1 5 30 17 17 = 502 ; a comparison that is an integer
";

#[test]
fn booleans_are_judged(rt: HostRuntime) -> Result<(), Fail> {
    let table = Table {
        names: "",
        frame: FRAME,
        cases: BOOLEANS,
    };
    let wrong = first_wrong(rt.alloc(), &Arithmetic, &table)?;
    assert!(rt; wrong.is_none(), "{wrong:?}");
    Ok(())
}

const SELECTIONS: &str = "
0x000600a9 5 30 16 17 17 = 0 ; one of two integers
0x000600a9 7 30 16 19 19 = 0 ; one of two vectors
0x000600a9 7 30 20 19 19 = 0 ; each component of one of two vectors
0x000600a9 9 30 20 22 22 = 501 ; each of two components by three conditions
0x000600a9 10 30 16 21 21 = 0 ; one of two structs
0x000600a9 10 30 20 21 21 = 501 ; one of two structs by three conditions
0x000600a9 14 30 16 24 24 = 502 ; one of two pointers
0x000600a9 5 30 16 17 18 = 501 ; one of an unsigned and a signed integer
0x000600a9 6 30 16 17 17 = 501 ; one of two unsigned integers as a signed one
0x000600a9 5 30 17 17 17 = 501 ; one of two integers by an integer
";

#[test]
fn selections_are_judged(rt: HostRuntime) -> Result<(), Fail> {
    let table = Table {
        names: "",
        frame: FRAME,
        cases: SELECTIONS,
    };
    let wrong = first_wrong(rt.alloc(), &Arithmetic, &table)?;
    assert!(rt; wrong.is_none(), "{wrong:?}");
    Ok(())
}

const EXTENDED: &str = "
0x0007000c 7 30 2 38 19 19 = 0 ; the least of two vectors
0x0008000c 5 30 2 44 17 17 18 = 0 ; an integer between an unsigned and a signed one
0x0007000c 7 30 2 38 19 17 = 501 ; the least of a vector and an integer
0x0007000c 4 30 2 38 16 16 = 501 ; the least of two booleans
0x0007000c 5 30 17 38 17 17 = 501 ; the least of two integers, in a set that is an integer
0x0007000c 5 30 2 38 19 19 = 502 ; the least of two vectors as an integer
0x00040071 5 30 17 = 502 ; a conversion of an integer
0x00040072 5 30 16 = 502 ; a signed conversion of a boolean
";

#[test]
fn extended_instructions_are_judged(rt: HostRuntime) -> Result<(), Fail> {
    let table = Table {
        names: "",
        frame: FRAME,
        cases: EXTENDED,
    };
    let wrong = first_wrong(rt.alloc(), &Arithmetic, &table)?;
    assert!(rt; wrong.is_none(), "{wrong:?}");
    Ok(())
}

const TERMINATORS: &str = "
0x000400fa 16 31 31 0x000200f8 31 = 0 ; a branch by a boolean
0x000400fa 17 31 31 0x000200f8 31 = 501 ; a branch by an integer
0x000400fa 20 31 31 0x000200f8 31 = 501 ; a branch by three booleans
0x000500fb 18 31 0 31 0x000200f8 31 = 0 ; a switch by an integer
0x000300fb 19 31 0x000200f8 31 = 501 ; a switch by a vector
0x000300fb 16 31 0x000200f8 31 = 501 ; a switch by a boolean
0x0004003d 5 30 17 = 0 ; a load from an integer, at which no rule here looks
0x00040053 5 30 5 = 0 ; a copy of a type, at which no rule here looks
";

#[test]
fn terminators_are_judged(rt: HostRuntime) -> Result<(), Fail> {
    let table = Table {
        names: "",
        frame: FRAME,
        cases: TERMINATORS,
    };
    let wrong = first_wrong(rt.alloc(), &Arithmetic, &table)?;
    assert!(rt; wrong.is_none(), "{wrong:?}");
    Ok(())
}

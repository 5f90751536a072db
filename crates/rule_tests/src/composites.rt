use crate::modules::module;
use spv_composites::{Forms, broken_composite_rule};
use spv_module::NoMemory;
use spv_types::tables;
use std::alloc::Global;
use std::test::Fail;
use test_texts::{Table, Tells, Unread, first_wrong, rule};

/// Declarations; a function with values; the instruction that a case gives; OpReturn; OpFunctionEnd.
pub(crate) const FRAME: &str = "
; The header; OpCapability Shader; OpMemoryModel Logical GLSL450; OpEntryPoint GLCompute %1 main.
0x07230203 0x00010600 0 100 0 0x00020011 1 0x0003000e 0 1 0x0005000f 5 1 0x6e69616d 0
; %12 has the SpecId 0, and %29 has 1.
0x00040047 12 1 0 0x00040047 29 1 1
; %2 void; %3 function; %4 bool; %5 uint; %6 int; %7 uvec3; %8 uvec2; %9 bvec3.
0x00020013 2 0x00030021 3 2 0x00020014 4 0x00040015 5 32 0 0x00040015 6 32 1 0x00040017 7 5 3
0x00040017 8 5 2 0x00040017 9 4 3
; Constants: %10 uint 2; %11 int 2; %12 uint 2, specialised; %13 uint 1; %14 int -1; %29 uint 2, specialised.
0x0004002b 5 10 2 0x0004002b 6 11 2 0x00040032 5 12 2 0x0004002b 5 13 1 0x0004002b 6 14 0xffffffff
0x00040032 5 29 2
; Arrays of uint: %15 of %10; %16 of %11; %17 of %12; %18 of %14; %28 of %29.
0x0004001c 15 5 10 0x0004001c 16 5 11 0x0004001c 17 5 12 0x0004001c 18 5 14 0x0004001c 28 5 29
; Structs: %19 and %20 of uint and uvec3; %21 of uint and uvec2; %22 runtime array of uint; %23 of uint and
; that.
0x0004001e 19 5 7 0x0004001e 20 5 7 0x0004001e 21 5 8 0x0003001d 22 5 0x0004001e 23 5 22
; %24 of %15 and %19; %25 of %16 and %20; %26 and %27 of %17; %37 of %24 alone; %38 of %28; %67 of two %17.
0x0004001e 24 15 19 0x0004001e 25 16 20 0x0003001e 26 17 0x0003001e 27 17 0x0003001e 37 24
0x0003001e 38 28 0x0004001e 67 17 17
; Pointers: of Function %30 to uint, %31 to %19, %33 to uvec3, %35 to bool; %32 of StorageBuffer to %23; %34 of
; Private to uint; %36 of StorageBuffer to %22; %39 of StorageBuffer to uint.
0x00040020 30 7 5 0x00040020 31 7 19 0x00040020 33 7 7 0x00040020 35 7 4 0x00040020 32 12 23
0x00040020 34 6 5 0x00040020 36 12 22 0x00040020 39 12 5
; %1 = OpFunction %2 None %3; %99 = OpLabel; and values %40 to %66 and %68, each an OpUndef.
0x00050036 2 1 0 3 0x000200f8 99 0x00030001 4 40 0x00030001 5 41 0x00030001 6 42 0x00030001 7 43
0x00030001 8 44 0x00030001 9 45 0x00030001 15 46 0x00030001 19 47 0x00030001 20 48 0x00030001 21 49
0x00030001 24 50 0x00030001 25 51 0x00030001 26 52 0x00030001 27 53 0x00030001 17 54
0x00030001 28 55 0x00030001 16 56 0x00030001 38 57 0x00030001 18 58 0x00030001 23 59
0x00030001 30 60 0x00030001 31 61 0x00030001 32 62 0x00030001 33 63 0x00030001 34 64
0x00030001 35 65 0x00030001 36 66 0x00030001 67 68
|
0x000100fd 0x00010038
";

/// The rule that an instruction at the end of the function breaks, if any; 1 where the words spell no module with tables.
fn broken(alloc: Global, words: &[u32]) -> Result<Option<u16>, NoMemory> {
    let Some(flat) = module(alloc, words) else {
        return Ok(Some(1));
    };
    let Ok(found) = tables(alloc, &flat) else {
        return Ok(Some(1));
    };
    let forms = Forms::of(alloc, &found)?;
    let count = flat.count();
    if count < 3 {
        return Ok(Some(1));
    }
    Ok(broken_composite_rule(&forms, &flat.at(count - 3)))
}

/// The rules on composites, copies and memory.
pub(crate) struct Composites;

impl Tells for Composites {
    fn tell(&self, alloc: Global, words: &[u32]) -> Result<Vec<u32>, Unread> {
        match broken(alloc, words) {
            Ok(broken) => rule(alloc, broken),
            Err(_) => Err(Unread::NoMemory),
        }
    }
}

// Each line of cases is an instruction; behind the `=` the rule that it breaks, or 0 where it breaks none: 501 OperandType,
// 502 ResultType.

const COMPONENTS: &str = "
0x0005004d 5 90 43 42 = 0 ; a component
0x0005004d 5 90 41 41 = 501 ; a component of a scalar
0x0005004d 5 90 43 44 = 501 ; a component by a vector
0x0005004d 5 90 43 40 = 501 ; a component by a boolean
0x0005004d 5 90 7 41 = 501 ; a component of a type
0x0005004d 4 90 43 41 = 502 ; a component as a boolean
0x0006004e 7 90 43 41 42 = 0 ; a vector with another component
0x0006004e 7 90 44 41 42 = 501 ; a longer vector with another component
0x0006004e 7 90 43 42 42 = 501 ; a vector with a signed component
0x0006004e 7 90 43 41 40 = 501 ; a vector with a component by a boolean
0x0006004e 19 90 47 41 41 = 502 ; a struct with another component
0x0006004e 19 90 47 99 41 = 501 ; a struct with a label for a component
0x0008004f 7 90 43 44 0 4 0xffffffff = 0 ; a shuffle
0x0008004f 7 90 43 44 0 5 1 = 501 ; a shuffle past both vectors
0x0007004f 7 90 43 44 0 4 = 501 ; a shuffle of two components into three
0x0008004f 7 90 43 45 0 1 2 = 501 ; a shuffle of booleans and integers
0x0008004f 7 90 45 45 0 1 2 = 501 ; a shuffle of booleans into integers
0x0008004f 7 90 43 41 0 1 2 = 501 ; a shuffle of an integer
0x0007004f 15 90 43 43 0 1 = 502 ; a shuffle into an array
";

#[test]
fn components_of_vectors(rt: HostRuntime) -> Result<(), Fail> {
    let table = Table {
        names: "",
        frame: FRAME,
        cases: COMPONENTS,
    };
    let wrong = first_wrong(rt.alloc(), &Composites, &table)?;
    assert!(rt; wrong.is_none(), "{wrong:?}");
    Ok(())
}

const PARTS: &str = "
0x00050050 7 90 41 44 = 0 ; a vector of a scalar and a vector
0x00040050 7 90 43 = 501 ; a vector of one vector
0x00050050 7 90 41 41 = 501 ; a vector of two scalars in three
0x00050050 7 90 44 44 = 501 ; a vector of four in three
0x00050050 8 90 42 42 = 501 ; a vector of signed scalars
0x00050050 15 90 41 41 = 0 ; an array of its elements
0x00050050 16 90 41 41 = 0 ; an array of as many as an int says
0x00040050 15 90 41 = 501 ; an array of one too few
0x00060050 15 90 41 41 41 = 501 ; an array of one too many
0x00050050 15 90 41 42 = 501 ; an array of other elements
0x00050050 17 90 41 41 = 501 ; an array of a specialised length
0x00030050 18 90 = 501 ; an array of a negative length
0x00050050 19 90 41 43 = 0 ; a struct of its members
0x00040050 19 90 41 = 501 ; a struct of one member too few
0x00050050 19 90 43 41 = 501 ; a struct of members in another order
0x00050050 23 90 41 41 = 502 ; a struct that ends in a runtime array
0x00040050 5 90 41 = 502 ; a scalar of a scalar
0x00040050 5 90 5 = 501 ; a scalar of a type
0x00060051 5 90 47 1 2 = 0 ; a component of a member
0x00060051 5 90 47 1 3 = 501 ; a fourth component of a member
0x00050051 5 90 47 2 = 501 ; a third member
0x00050051 5 90 46 9 = 0 ; an element past an array's length
0x00040051 19 90 47 = 501 ; all of a struct
0x00050051 5 90 41 0 = 501 ; a part of a scalar
0x00050051 7 90 19 1 = 501 ; a part of a type
0x00050051 8 90 47 1 = 502 ; a member as another type
0x00070052 19 90 41 47 1 2 = 0 ; a struct with another component of a member
0x00070052 19 90 43 47 1 2 = 501 ; a struct with a vector for a component
0x00050052 19 90 47 47 = 501 ; a struct with another whole
0x00060052 19 90 41 47 2 = 501 ; a struct with a third member
0x00060052 19 90 5 47 0 = 501 ; a struct with a type for a member
0x00060052 20 90 41 47 0 = 502 ; a struct with another member as a matching struct
";

#[test]
fn parts_of_composites(rt: HostRuntime) -> Result<(), Fail> {
    let table = Table {
        names: "",
        frame: FRAME,
        cases: PARTS,
    };
    let wrong = first_wrong(rt.alloc(), &Composites, &table)?;
    assert!(rt; wrong.is_none(), "{wrong:?}");
    Ok(())
}

const COPIES: &str = "
0x00040053 19 90 47 = 0 ; a copy
0x00040053 20 90 47 = 501 ; a copy as a matching struct
0x00040053 30 90 60 = 502 ; a copy of a pointer
0x00040053 5 90 5 = 501 ; a copy of a type
0x00040190 20 90 47 = 0 ; a struct as one of the same members
0x00040190 15 90 56 = 0 ; an array as one of an equal length
0x00040190 24 90 51 = 0 ; a struct of an array and a struct as one that matches
0x00040190 26 90 53 = 0 ; a struct of an array of a specialised length as another
0x00040190 19 90 47 = 501 ; a struct as itself
0x00040190 5 90 41 = 501 ; an integer as itself
0x00040190 21 90 47 = 501 ; a struct as one of other members
0x00040190 67 90 52 = 501 ; a struct as one of a member more
0x00040190 26 90 68 = 501 ; a struct as one of a member fewer
0x00040190 37 90 50 = 501 ; a struct as its only member
0x00040190 15 90 54 = 501 ; an array as one of a specialised length
0x00040190 17 90 55 = 501 ; an array as one of another specialised length
0x00040190 26 90 57 = 501 ; a struct of an array of a specialised length as one of another
0x00040190 5 90 46 = 501 ; an array as an integer
0x00030001 19 90 = 0 ; an undefined struct
0x00030001 30 90 = 502 ; an undefined pointer
0x00030001 23 90 = 502 ; an undefined struct that ends in a runtime array
0x000700f5 5 90 41 99 10 99 = 0 ; one of two values
0x000700f5 5 90 41 99 42 99 = 501 ; one of a value and a signed one
0x000700f5 5 90 41 99 99 99 = 501 ; one of a value and a label
0x000700f5 30 90 60 99 60 99 = 502 ; one of two pointers
";

#[test]
fn copies(rt: HostRuntime) -> Result<(), Fail> {
    let table = Table {
        names: "",
        frame: FRAME,
        cases: COPIES,
    };
    let wrong = first_wrong(rt.alloc(), &Composites, &table)?;
    assert!(rt; wrong.is_none(), "{wrong:?}");
    Ok(())
}

use crate::modules::module;
use spv_module::NoMemory;
use spv_typing::{Kinds, spec_op_fits, type_fits};
use std::alloc::Global;
use std::test::Fail;
use test_texts::{Table, Tells, Unread, first_wrong};

/// The header; OpCapability Shader; OpMemoryModel Logical GLSL450; OpEntryPoint GLCompute %1 main.
///
/// %2 = OpTypeVoid; %3 = OpTypeBool; %4 = OpTypeInt 32 0; %5 = OpTypeVector %4 3; %6 = OpConstant %4 2;
/// %7 = OpConstantTrue %3; %8 = OpTypeRuntimeArray %4; %9 = OpTypeStruct %8;
/// %10 = OpTypePointer StorageBuffer %9; %11 = OpTypePointer Function %4; %12 = OpTypeFunction %2;
/// %13 = OpTypeVector %3 3; %14 = OpConstantComposite %5 %6 %6 %6; %15 = OpConstantNull %13;
/// %16 = OpTypeStruct %4 %5; %17 = OpConstantNull %16; %18 = OpUndef %4; %19 = OpTypeArray %4 %6;
/// %20 = OpConstantNull %19.
/// The instruction of a case, which defines %32.
/// %1 = OpFunction %2 None %12; %22 = OpLabel; %23 = OpUndef %4; OpReturn; OpFunctionEnd.
const FRAME: &str = "
0x07230203 0x00010600 0 33 0 0x00020011 1 0x0003000e 0 1 0x0005000f 5 1 0x6e69616d 0 0x00020013 2
0x00020014 3 0x00040015 4 32 0 0x00040017 5 4 3 0x0004002b 4 6 2 0x00030029 3 7 0x0003001d 8 4
0x0003001e 9 8 0x00040020 10 12 9 0x00040020 11 7 4 0x00030021 12 2 0x00040017 13 3 3
0x0006002c 5 14 6 6 6 0x0003002e 13 15 0x0004001e 16 4 5 0x0003002e 16 17 0x00030001 4 18
0x0004001c 19 4 6 0x0003002e 19 20
|
0x00050036 2 1 0 12 0x000200f8 22 0x00030001 4 23 0x000100fd 0x00010038
";

/// Whether the instruction that defines %32 fits as a type and as an operation of constants. None where the words spell no
/// module, or do not define %32.
fn answers(alloc: Global, words: &[u32]) -> Result<Option<(bool, bool)>, NoMemory> {
    let Some(flat) = module(alloc, words) else {
        return Ok(None);
    };
    let kinds = Kinds::of(alloc, &flat)?;
    match kinds.definitions().find(32) {
        Some(inst) => Ok(Some((type_fits(&kinds, &inst), spec_op_fits(&kinds, &inst)))),
        None => Ok(None),
    }
}

/// Whether an instruction fits as a type, and whether as an operation of constants: 1 where it does.
struct Fits;

impl Tells for Fits {
    fn tell(&self, alloc: Global, words: &[u32]) -> Result<Vec<u32>, Unread> {
        let mut told = Vec::new(alloc);
        match answers(alloc, words) {
            Ok(Some((as_type, as_operation))) => {
                told.push(u32::from(as_type))?;
                told.push(u32::from(as_operation))?;
            }
            Ok(None) => {}
            Err(_) => return Err(Unread::NoMemory),
        }
        Ok(told)
    }
}

/// Types, each of which fits as an operation, since it is none.
const TYPES: &str = "
0x00040015 32 64 0 = 0 1 ; integers of 64 bits
0x00040015 32 32 2 = 0 1 ; integers of a third signedness
0x00040015 32 32 1 = 1 1 ; signed integers
0x00040017 32 4 1 = 0 1 ; vectors of one
0x00040017 32 3 2 = 1 1 ; vectors of two booleans
0x00040017 32 4 4 = 1 1 ; vectors of four
0x00040017 32 4 5 = 0 1 ; vectors of five
0x00040017 32 5 3 = 0 1 ; vectors of vectors
0x0004001c 32 16 6 = 1 1 ; arrays of structs
0x0004001c 32 9 6 = 0 1 ; arrays of structs that end in a runtime array
0x0004001c 32 8 6 = 0 1 ; arrays of runtime arrays
0x0004001c 32 4 7 = 0 1 ; arrays with a boolean for their length
0x0004001c 32 4 18 = 1 1 ; arrays with an undefined constant for their length
0x0004001c 32 4 23 = 0 1 ; arrays with a function's value for their length
0x0003001d 32 5 = 1 1 ; runtime arrays of vectors
0x0003001d 32 9 = 0 1 ; runtime arrays of structs that end in one
0x0002001e 32 = 0 1 ; structs of nothing
0x0004001e 32 4 8 = 1 1 ; structs that end in a runtime array
0x0004001e 32 8 4 = 0 1 ; structs that begin with one
0x0003001e 32 9 = 0 1 ; structs that end in a struct that ends in one
0x0003001e 32 11 = 0 1 ; structs of pointers
0x00040020 32 12 8 = 1 1 ; pointers to runtime arrays
0x00040020 32 12 9 = 1 1 ; pointers to structs that end in one
0x00040020 32 7 11 = 0 1 ; pointers to pointers
0x00040020 32 7 2 = 0 1 ; pointers to void
0x00040021 32 9 4 = 1 1 ; functions that return a struct that ends in one
0x00030021 32 11 = 0 1 ; functions that return a pointer
0x00040021 32 2 11 = 1 1 ; functions with a parameter that points into a function
0x00040021 32 2 10 = 0 1 ; functions with a parameter that points into a buffer
0x00040021 32 4 2 = 0 1 ; functions with a parameter of void
";

#[test]
fn types_fit(rt: HostRuntime) -> Result<(), Fail> {
    let table = Table {
        names: "",
        frame: FRAME,
        cases: TYPES,
    };
    let wrong = first_wrong(rt.alloc(), &Fits, &table)?;
    assert!(rt; wrong.is_none(), "{wrong:?}");
    Ok(())
}

/// Operations of constants, each of which fits as a type, since it is none.
const OPERATIONS: &str = "
0x00050034 4 32 126 6 = 1 1 ; a negation
0x00050034 4 32 205 6 = 1 0 ; the number of an integer's bits
0x00050034 4 32 113 6 = 1 0 ; a conversion
0x00060034 5 32 128 14 14 = 1 1 ; a sum of vectors
0x00060034 5 32 128 14 6 = 1 0 ; a sum of a vector and an integer
0x00060034 4 32 128 6 18 = 1 1 ; a sum with an undefined constant
0x00060034 4 32 128 6 23 = 1 0 ; a sum with a function's value
0x00060034 4 32 128 6 4 = 1 0 ; a sum with a type
0x00060034 3 32 135 7 7 = 1 0 ; a quotient of booleans
0x00060034 4 32 135 7 7 = 1 0 ; a quotient of booleans that is an integer
0x00060034 4 32 135 6 6 = 1 1 ; a quotient
0x00050034 13 32 168 15 = 1 1 ; the negation of three booleans
0x00050034 3 32 168 6 = 1 0 ; the negation of an integer
0x00060034 3 32 167 7 7 = 1 1 ; both of two booleans
0x00060034 4 32 167 7 7 = 1 0 ; both of two booleans as an integer
0x00060034 13 32 179 14 14 = 1 1 ; three comparisons
0x00060034 3 32 179 14 14 = 1 0 ; three comparisons in one
0x00060034 3 32 170 7 7 = 1 0 ; a comparison of booleans
0x00070034 5 32 169 7 14 14 = 1 1 ; one of two vectors
0x00070034 5 32 169 15 14 14 = 1 1 ; each component of one of two vectors
0x00070034 4 32 169 15 6 6 = 1 0 ; three choices of one of two integers
0x00070034 4 32 169 7 14 14 = 1 0 ; one of two vectors as an integer
0x00070034 16 32 169 7 17 17 = 1 0 ; one of two structs
0x00090034 5 32 79 14 14 0 5 0xffffffff = 1 1 ; a shuffle
0x00090034 5 32 79 14 14 0 6 1 = 1 0 ; a shuffle past both vectors
0x00080034 5 32 79 14 14 0 5 = 1 0 ; a shuffle of two components into three
0x00090034 5 32 79 15 14 0 1 2 = 1 0 ; a shuffle of booleans into integers
0x00070034 4 32 81 17 1 2 = 1 1 ; a component of a member
0x00070034 4 32 81 17 1 3 = 1 0 ; a fourth component of a member
0x00060034 3 32 81 14 0 = 1 0 ; a component as a boolean
0x00060034 5 32 81 17 2 = 1 0 ; a third member
0x00060034 4 32 81 20 9 = 1 1 ; an element of an array, whatever its place
0x00050034 5 32 81 14 = 1 0 ; all of a vector
0x00070034 5 32 82 6 14 2 = 1 1 ; a vector with another component
0x00070034 5 32 82 6 14 3 = 1 0 ; a vector with a fourth component
0x00070034 5 32 82 7 14 2 = 1 0 ; a vector with a boolean for a component
0x00070034 16 32 82 6 17 0 = 1 0 ; a struct with another member
";

#[test]
fn operations_of_constants_fit(rt: HostRuntime) -> Result<(), Fail> {
    let table = Table {
        names: "",
        frame: FRAME,
        cases: OPERATIONS,
    };
    let wrong = first_wrong(rt.alloc(), &Fits, &table)?;
    assert!(rt; wrong.is_none(), "{wrong:?}");
    Ok(())
}

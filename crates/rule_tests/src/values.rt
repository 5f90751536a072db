use crate::modules::module;
use spv_module::NoMemory;
use spv_typing::Kinds;
use spv_values::{
    is_bools, is_ints, is_pointer_value, is_value, is_value_of, pointer_type, value_shape,
    value_type,
};
use std::alloc::Global;
use std::test::Fail;
use test_texts::{Table, Tells, Unread, first_wrong};

/// The header; OpCapability Shader; %2 = OpExtInstImport GLSL.std.450; OpMemoryModel Logical GLSL450;
/// OpEntryPoint GLCompute %1 main; %3 = OpString a.
///
/// %4 = OpTypeVoid; %5 = OpTypeBool; %6 = OpTypeInt 32 0; %7 = OpTypeVector %6 3;
/// %8 = OpTypePointer Function %6; %9 = OpTypeFunction %4 %8; %10 = OpConstantTrue %5;
/// %11 = OpConstantNull %7.
///
/// %1 = OpFunction %4 None %9; %12 = OpFunctionParameter %8; %13 = OpLabel; %14 = OpVariable %8 Function;
/// %15 = OpIAdd %6 %10 %10; %16 = OpFunctionCall %4 %1 %12; OpReturn; OpFunctionEnd.
///
/// Behind the module a case has an id.
const FRAME: &str = "
0x07230203 0x00010600 0 17 0 0x00020011 1 0x0006000b 2 0x4c534c47 0x6474732e 0x3035342e 0
0x0003000e 0 1 0x0005000f 5 1 0x6e69616d 0 0x00030007 3 97 0x00020013 4 0x00020014 5
0x00040015 6 32 0 0x00040017 7 6 3 0x00040020 8 7 6 0x00040021 9 4 8 0x00030029 5 10 0x0003002e 7 11
0x00050036 4 1 0 9 0x00030037 8 12 0x000200f8 13 0x0004003b 8 14 7 0x00050080 6 15 10 10
0x00050039 4 16 1 12 0x000100fd 0x00010038
|
";

/// An id, and the type of which it is a value, or 0 where it is none; behind it, where it is a scalar or a vector, whether
/// of booleans, and its number of components.
const CASES: &str = "
1 = 0 ; a function
2 = 0 ; an import
3 = 0 ; a string
6 = 0 ; a type
10 = 5 1 1 ; a boolean constant
11 = 7 0 3 ; a vector
12 = 8 ; a parameter
13 = 0 ; a label
14 = 8 ; a variable
15 = 6 0 1 ; a sum
16 = 4 ; a call
17 = 0 ; an id that nothing defines
0 = 0 ; no id
";

/// Whether all that is told of an id fits to the type of which it is a value, if of any.
fn agrees(kinds: &Kinds, id: u32, t: Option<u32>) -> bool {
    is_value(kinds, id) == t.is_some()
        && is_value_of(kinds, 6, id) == (t == Some(6))
        && pointer_type(kinds, id) == t.filter(|t| *t == 8)
        && is_pointer_value(kinds, id) == (t == Some(8))
        && is_ints(kinds, 3, id) == (t == Some(7))
        && is_bools(kinds, 1, id) == (t == Some(5))
}

/// The type of an id and its shape; no answer where something does not fit to it.
fn told_of(alloc: Global, kinds: &Kinds, id: u32) -> Result<Vec<u32>, NoMemory> {
    let mut told = Vec::new(alloc);
    let t = value_type(kinds, id);
    if !agrees(kinds, id, t) {
        return Ok(told);
    }
    told.push(t.unwrap_or(0))?;
    if let Some(shape) = value_shape(kinds, id) {
        told.push(u32::from(shape.is_boolean))?;
        told.push(shape.count)?;
    }
    Ok(told)
}

/// What is told of an id behind a module.
fn told(alloc: Global, words: &[u32]) -> Result<Vec<u32>, NoMemory> {
    let [words @ .., id] = words else {
        return Ok(Vec::new(alloc));
    };
    let Some(flat) = module(alloc, words) else {
        return Ok(Vec::new(alloc));
    };
    let kinds = Kinds::of(alloc, &flat)?;
    told_of(alloc, &kinds, *id)
}

/// Values and their types.
struct Values;

impl Tells for Values {
    fn tell(&self, alloc: Global, words: &[u32]) -> Result<Vec<u32>, Unread> {
        match told(alloc, words) {
            Ok(told) => Ok(told),
            Err(_) => Err(Unread::NoMemory),
        }
    }
}

#[test]
fn values_are_told(rt: HostRuntime) -> Result<(), Fail> {
    let table = Table {
        names: "",
        frame: FRAME,
        cases: CASES,
    };
    let wrong = first_wrong(rt.alloc(), &Values, &table)?;
    assert!(rt; wrong.is_none(), "{wrong:?}");
    Ok(())
}

use crate::modules::module;
use spv_base::Fault;
use spv_types::tables;
use spv_usage::{Stage, broken_usage_rule};
use std::alloc::Global;
use std::test::Fail;
use test_texts::{Table, Tells, Unread, first_wrong, rule_at};

/// The header; OpCapability Shader; OpMemoryModel Logical GLSL450; OpEntryPoint GLCompute %1 "main"; OpString %60.
///
/// %12 has SpecId 7; %15 ArrayStride 4; %16 and %25 Block; %18 and %27 DescriptorSet and Binding; %34 GlobalInvocationId.
///
/// %2 = OpTypeVoid; %3 = OpTypeInt 32 0; %4 = OpTypeFunction %2; %13 = OpTypeBool; %33 = OpTypeVector %3 3;
/// %42 = OpTypeInt 32 1; %15 = OpTypeRuntimeArray %3; %16 = OpTypeStruct %15; %25 = OpTypeStruct %3.
/// Constants of %3: %5 is 1, %6 is 2, %7 is 4, %8 is 72, %9 is 0, %10 is 6, %11 is 40, %39 is 16, %40 is 0xFD0,
/// %41 is 3, %46 is 0x1010, %47 is 5, %38 is undefined, and %12 is 2 or given. %14 is true; %43 is 2 of %42; %44 is
/// OpConstantNull %33.
/// Variables: %18 of StorageBuffer, %22 of Workgroup, %24 of Private, %27 of Uniform, %30 of PushConstant, %34 of Input.
/// Pointers to %3: %19 to StorageBuffer, %20 to Function, %21 to Workgroup, %23 to Private, %28 to Uniform, %31 to
/// PushConstant. Pointers of Function: %36 to %15, %37 to %16, %45 to %33.
///
/// %1 = OpFunction %2 None %4; %100 = OpLabel; the body that a case gives; OpReturn; OpFunctionEnd.
const FRAME: &str = "
0x07230203 0x00010600 0 200 0 0x00020011 1 0x0003000e 0 1 0x0005000f 5 1 0x6e69616d 0
0x00030007 60 27755 0x00040047 12 1 7 0x00040047 15 6 4 0x00030047 16 2 0x00050048 16 0 35 0
0x00040047 18 34 0 0x00040047 18 33 0 0x00030047 25 2 0x00050048 25 0 35 0 0x00040047 27 34 0
0x00040047 27 33 1 0x00040047 34 11 28 0x00020013 2 0x00040015 3 32 0 0x00030021 4 2
0x0004002b 3 5 1 0x0004002b 3 6 2 0x0004002b 3 7 4 0x0004002b 3 8 72 0x0004002b 3 9 0
0x0004002b 3 10 6 0x0004002b 3 11 40 0x00040032 3 12 2 0x00020014 13 0x00030029 13 14
0x0003001d 15 3 0x0003001e 16 15 0x00040020 17 12 16 0x0004003b 17 18 12 0x00040020 19 12 3
0x00040020 20 7 3 0x00040020 21 4 3 0x0004003b 21 22 4 0x00040020 23 6 3 0x0004003b 23 24 6
0x0003001e 25 3 0x00040020 26 2 25 0x0004003b 26 27 2 0x00040020 28 2 3 0x00040020 29 9 25
0x0004003b 29 30 9 0x00040020 31 9 3 0x00040017 33 3 3 0x00040020 32 1 33 0x0004003b 32 34 1
0x00040020 36 7 15 0x00040020 37 7 16 0x00030001 3 38 0x0004002b 3 39 16 0x0004002b 3 40 4048
0x0004002b 3 41 3 0x00040015 42 32 1 0x0004002b 42 43 2 0x0003002e 33 44 0x00040020 45 7 33
0x0004002b 3 46 4112 0x0004002b 3 47 5
0x00050036 2 1 0 4 0x000200f8 100
|
0x000100fd 0x00010038
";

/// How many instructions stand before the body.
const DECLARED: u32 = 62;

/// The first broken rule of 504 and 505, and at which instruction of the body, counted from 0; 0 and 0 where the words
/// spell no module.
fn broken(alloc: Global, words: &[u32]) -> Result<Option<(u16, u32)>, Fault> {
    let Some(flat) = module(alloc, words) else {
        return Ok(Some((0, 0)));
    };
    let found = tables(alloc, &flat)?;
    let mut stage = Stage::first();
    'instructions: for k in 0..flat.count() {
        let inst = flat.at(k);
        if let Some(rule) = broken_usage_rule(&found, stage, &inst) {
            return Ok(Some((rule, k.saturating_sub(DECLARED))));
        }
        stage.next(&inst);
    }
    Ok(None)
}

/// The rules on storage classes, scopes and semantics.
struct Usage;

impl Tells for Usage {
    fn tell(&self, alloc: Global, words: &[u32]) -> Result<Vec<u32>, Unread> {
        match broken(alloc, words) {
            Ok(broken) => rule_at(alloc, broken),
            Err(_) => Err(Unread::NoMemory),
        }
    }
}

// Each line of cases is a body; behind the `=` the broken rule and its instruction, or 0 where none is broken.

const STORAGE: &str = "
0x0001013d = 0 ; nothing
0x00040008 60 1 1 0x0004003b 20 101 7 0x0001013d 0x0005003b 20 102 7 5 = 0 ; two variables, with line marks
0x0004003b 20 101 7 0x0003003e 101 5 0x0004003b 20 102 7 = 504 2 ; a variable behind a store
0x000200f9 101 0x000200f8 101 0x0004003b 20 102 7 = 504 2 ; a variable in the second block
0x000100fd 0x00010038 0x00050036 2 103 0 4 0x000200f8 104 0x0004003b 20 105 7 = 0 ; a variable in the first block of a second function
0x0004003b 23 101 6 = 504 0 ; a variable in Private
0x0004003b 23 101 7 = 504 0 ; a variable of another class than its pointer
0x0004003b 3 101 7 = 504 0 ; a variable of an integer type
0x0004003b 36 101 7 = 504 0 ; a runtime array
0x0004003b 37 101 7 = 504 0 ; a struct that ends in one
0x0005003b 45 101 7 44 = 0 ; an initialiser of the type
0x0005003b 20 101 7 43 = 504 0 ; an initialiser of another type
0x0004003b 20 101 7 0x0005003b 20 102 7 101 = 504 1 ; an initialiser that is no constant
0x0005003b 20 101 7 38 = 0 ; an undefined initialiser
0x00060041 19 101 18 9 9 0x0003003e 101 5 = 0 ; a store to a buffer
0x0003003e 24 5 = 0 ; a store to Private
0x0003003e 22 5 = 0 ; a store to Workgroup
0x00050041 28 101 27 9 0x0003003e 101 5 = 504 1 ; a store to Uniform
0x00050041 31 101 30 9 0x0003003e 101 5 = 504 1 ; a store to PushConstant
0x0003003e 34 44 = 504 0 ; a store to Input
0x0003003e 5 5 = 0 ; a store to what is no pointer
0x00050044 3 101 18 0 = 0 ; the length of an array in a buffer
0x00050044 3 101 30 0 = 504 0 ; the length of an array in PushConstant
0x00060041 19 101 18 9 9 0x000700ea 3 102 101 5 8 5 = 0 ; an atomic in a buffer
0x000600e3 3 101 22 6 9 = 0 ; an atomic in Workgroup
0x000700f2 3 101 24 6 9 5 = 504 0 ; an atomic in Private
0x000500e4 22 6 9 5 = 0 ; an atomic store to Workgroup
0x00050041 28 101 27 9 0x000500e4 101 6 9 5 = 504 1 ; an atomic store to Uniform
0x000500e4 24 41 9 5 = 504 0 ; an atomic store to Private at no scope
";

#[test]
fn storage_is_used(rt: HostRuntime) -> Result<(), Fail> {
    let table = Table {
        names: "",
        frame: FRAME,
        cases: STORAGE,
    };
    let wrong = first_wrong(rt.alloc(), &Usage, &table)?;
    assert!(rt; wrong.is_none(), "{wrong:?}");
    Ok(())
}

const SCOPES: &str = "
0x000400e0 6 5 8 = 0 ; a control barrier
0x000400e0 43 43 9 = 0 ; a control barrier of signed constants
0x000400e0 5 6 8 = 505 0 ; a control barrier of the device
0x000400e0 6 41 8 = 505 0 ; a control barrier at no memory scope
0x000400e0 6 6 10 = 505 0 ; a control barrier of two orders
0x000400e0 12 6 8 = 505 0 ; a control barrier of a given scope
0x000300e1 7 40 = 0 ; a memory barrier of an invocation with all bits of memories
0x000300e1 7 11 = 505 0 ; a memory barrier with a bit of no memory
0x000300e1 7 46 = 505 0 ; a memory barrier with a bit past all
0x000300e1 41 39 = 505 0 ; a memory barrier of a subgroup
0x000300e1 47 39 = 505 0 ; a memory barrier of two scopes
0x000300e1 5 14 = 505 0 ; a memory barrier of a boolean
0x000300e1 5 44 = 505 0 ; a memory barrier of a vector of zeros
0x00050080 3 101 5 5 0x000300e1 101 8 = 505 1 ; a memory barrier of a computed value
0x00030001 3 101 0x000300e1 5 101 = 505 1 ; a memory barrier of what a function leaves undefined
0x000600e8 3 101 22 12 9 = 505 0 ; an atomic at a given scope
0x000500e4 22 6 10 5 = 505 0 ; an atomic store of two orders
0x000900e6 3 101 22 6 8 39 5 5 = 0 ; an exchange of two semantics
0x000900e6 3 101 22 6 8 10 5 5 = 505 0 ; an exchange whose second semantics have two orders
0x000700e5 3 101 22 6 8 10 = 0 ; an exchange whose value is no semantics
";

#[test]
fn scopes_and_semantics_are_known(rt: HostRuntime) -> Result<(), Fail> {
    let table = Table {
        names: "",
        frame: FRAME,
        cases: SCOPES,
    };
    let wrong = first_wrong(rt.alloc(), &Usage, &table)?;
    assert!(rt; wrong.is_none(), "{wrong:?}");
    Ok(())
}

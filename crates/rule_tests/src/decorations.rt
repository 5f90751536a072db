use crate::modules::module;
use spv_decorations::{Decorations, decoration_fits, global_fits};
use spv_module::{Flat, NoMemory};
use spv_opcodes::{decoration, op};
use spv_typing::Kinds;
use std::alloc::Global;
use std::test::Fail;
use test_texts::{Table, Tells, Unread, first_wrong, framed};

/// First words of instructions (OpDecorate and OpMemberDecorate without and with a literal, OpVariable without and with an
/// initialiser), decorations, built-ins and storage classes.
const NAMES: &str = "
decoratewith = 0x00040047
specid = 1
decorate = 0x00030047
block = 2
arraystride = 6
builtin = 11
numworkgroups = 24
localinvocationindex = 29
workgroupsize = 25
restrict = 19
aliased = 20
volatile = 21
coherent = 23
nonwritable = 24
nonreadable = 25
binding = 33
descriptorset = 34
offset = 35
memberwith = 0x00050048
most = 0xffffffff
member = 0x00040048
workgroupid = 26
variable = 0x0004003b
private = 6
function = 7
workgroup = 4
input = 1
storagebuffer = 12
uniform = 2
pushconstant = 9
variablewith = 0x0005003b
";

/// The header; OpCapability Shader; OpMemoryModel Logical GLSL450; OpEntryPoint GLCompute %1 main. Decorations; types;
/// variables; %1 function with the parameter %47, a variable %48 and %54 undefined vector.
const FRAME: &str = "
0x07230203 0x00010600 0 60 0 0x00020011 1 0x0003000e 0 1 0x0005000f 5 1 0x6e69616d 0
|
; %2 void; %3 function of %5; %4 bool; %5 uint; %6 vector of 3 uint; %7 of 2 uint; %8 of 3 bool
0x00020013 2 0x00040021 3 2 5 0x00020014 4 0x00040015 5 32 0 0x00040017 6 5 3 0x00040017 7 5 2
0x00040017 8 4 3
; %9 constant 3; %10 array of 3 uint; %11 runtime array of uint; %12 struct of 2 uint; %13 of %5 and %11
0x0004002b 5 9 3 0x0004001c 10 5 9 0x0003001d 11 5 0x0004001e 12 5 5 0x0004001e 13 5 11
; specialisation constants: %14 true; %49 false; %15 number; %50 vector. %16 constant vector; %17 undefined vector
0x00030030 4 14 0x00030031 4 49 0x00040032 5 15 7 0x00060033 6 50 9 9 9 0x0006002c 6 16 9 9 9
0x00030001 6 17
; pointers of Input: %18, %19, %20 and %51 to %5, %6, %7 and %8
0x00040020 18 1 5 0x00040020 19 1 6 0x00040020 20 1 7 0x00040020 51 1 8
; of StorageBuffer: %21, %22 and %29 to %12, %13 and %5; of Uniform: %23 and %24 to %12 and %13
0x00040020 21 12 12 0x00040020 22 12 13 0x00040020 29 12 5 0x00040020 23 2 12 0x00040020 24 2 13
; of PushConstant: %25 to %12; of Private and of Function: %26 and %30 to %5
0x00040020 25 9 12 0x00040020 26 6 5 0x00040020 30 7 5
; of Workgroup: %27, %28 and %31 to %12, %11 and %5
0x00040020 27 4 12 0x00040020 28 4 11 0x00040020 31 4 5
|
0x00050036 2 1 0 3 0x00030037 5 47 0x000200f8 53 0x0004003b 30 48 7 0x00030001 6 54 0x000100fd
0x00010038
";

/// The same with a variable each of Input, StorageBuffer, Uniform, Private and PushConstant: %41 to %45.
const WITH_VARIABLES: &str = "
0x07230203 0x00010600 0 60 0 0x00020011 1 0x0003000e 0 1 0x0005000f 5 1 0x6e69616d 0
|
; %2 void; %3 function of %5; %4 bool; %5 uint; %6 vector of 3 uint; %7 of 2 uint; %8 of 3 bool
0x00020013 2 0x00040021 3 2 5 0x00020014 4 0x00040015 5 32 0 0x00040017 6 5 3 0x00040017 7 5 2
0x00040017 8 4 3
; %9 constant 3; %10 array of 3 uint; %11 runtime array of uint; %12 struct of 2 uint; %13 of %5 and %11
0x0004002b 5 9 3 0x0004001c 10 5 9 0x0003001d 11 5 0x0004001e 12 5 5 0x0004001e 13 5 11
; specialisation constants: %14 true; %49 false; %15 number; %50 vector. %16 constant vector; %17 undefined vector
0x00030030 4 14 0x00030031 4 49 0x00040032 5 15 7 0x00060033 6 50 9 9 9 0x0006002c 6 16 9 9 9
0x00030001 6 17
; pointers of Input: %18, %19, %20 and %51 to %5, %6, %7 and %8
0x00040020 18 1 5 0x00040020 19 1 6 0x00040020 20 1 7 0x00040020 51 1 8
; of StorageBuffer: %21, %22 and %29 to %12, %13 and %5; of Uniform: %23 and %24 to %12 and %13
0x00040020 21 12 12 0x00040020 22 12 13 0x00040020 29 12 5 0x00040020 23 2 12 0x00040020 24 2 13
; of PushConstant: %25 to %12; of Private and of Function: %26 and %30 to %5
0x00040020 25 9 12 0x00040020 26 6 5 0x00040020 30 7 5
; of Workgroup: %27, %28 and %31 to %12, %11 and %5
0x00040020 27 4 12 0x00040020 28 4 11 0x00040020 31 4 5
0x0004003b 19 41 1 0x0004003b 21 42 12 0x0004003b 23 43 2 0x0004003b 26 44 6 0x0004003b 25 45 9
0x00050036 2 1 0 3 0x00030037 5 47 0x000200f8 53 0x0004003b 30 48 7 0x00030001 6 54 0x000100fd
0x00010038
";

/// How many decorations do not fit their targets.
fn count_bad_decorations(alloc: Global, flat: &Flat) -> Result<u32, NoMemory> {
    let kinds = Kinds::of(alloc, flat)?;
    let mut bad = 0u32;
    'instructions: for k in 0..flat.count() {
        if !decoration_fits(&kinds, &flat.at(k)) {
            bad = bad.saturating_add(1);
        }
    }
    Ok(bad)
}

/// How many variables outside functions do not fit.
fn count_bad_globals(alloc: Global, flat: &Flat) -> Result<u32, NoMemory> {
    let kinds = Kinds::of(alloc, flat)?;
    let decorations = Decorations::of(alloc, flat.insts())?;
    let mut bad = 0u32;
    let mut begun = false;
    'instructions: for k in 0..flat.count() {
        let inst = flat.at(k);
        if !global_fits(&kinds, &decorations, begun, &inst) {
            bad = bad.saturating_add(1);
        }
        begun = begun || inst.opcode() == op::FUNCTION;
    }
    Ok(bad)
}

/// How many decorations of a module do not fit, or no answer where the words are no module.
struct BadDecorations;

impl Tells for BadDecorations {
    fn tell(&self, alloc: Global, words: &[u32]) -> Result<Vec<u32>, Unread> {
        let mut told = Vec::new(alloc);
        if let Some(flat) = module(alloc, words) {
            match count_bad_decorations(alloc, &flat) {
                Ok(count) => told.push(count)?,
                Err(_) => return Err(Unread::NoMemory),
            }
        }
        Ok(told)
    }
}

/// How many global variables of a module do not fit, or no answer where the words are no module.
struct BadGlobals;

impl Tells for BadGlobals {
    fn tell(&self, alloc: Global, words: &[u32]) -> Result<Vec<u32>, Unread> {
        let mut told = Vec::new(alloc);
        if let Some(flat) = module(alloc, words) {
            match count_bad_globals(alloc, &flat) {
                Ok(count) => told.push(count)?,
                Err(_) => return Err(Unread::NoMemory),
            }
        }
        Ok(told)
    }
}

/// Decorations, and how many of them do not fit.
const DECORATED: &str = "
decoratewith 14 specid 0 = 0
decoratewith 49 specid 0 = 0
decoratewith 15 specid 0 = 0
decoratewith 50 specid 0 = 1
decoratewith 9 specid 0 = 1
decorate 12 block = 0
decorate 10 block = 1
decorate 42 block = 1
decoratewith 10 arraystride 4 = 0
decoratewith 11 arraystride 4 = 0
decoratewith 6 arraystride 4 = 1
decoratewith 12 arraystride 4 = 1
; a built-in of an Input variable
decoratewith 41 builtin numworkgroups = 0
decoratewith 44 builtin numworkgroups = 1
decoratewith 16 builtin numworkgroups = 1
decoratewith 12 builtin localinvocationindex = 1
; the built-in of a constant vector of three integers
decoratewith 16 builtin workgroupsize = 0
decoratewith 50 builtin workgroupsize = 0
decoratewith 17 builtin workgroupsize = 0
decoratewith 54 builtin workgroupsize = 1
decoratewith 41 builtin workgroupsize = 1
decoratewith 9 builtin workgroupsize = 1
; how a memory is used: variables and parameters
decorate 42 restrict = 0
decorate 42 aliased = 0
decorate 42 volatile = 0
decorate 42 coherent = 0
decorate 42 nonwritable = 0
decorate 47 nonreadable = 0
decorate 48 restrict = 0
decorate 12 nonreadable = 1
decorate 9 volatile = 1
decorate 1 coherent = 1
decoratewith 42 binding 0 = 0
decoratewith 43 binding 0 = 0
decoratewith 44 binding 0 = 1
decoratewith 45 binding 0 = 1
decoratewith 42 descriptorset 0 = 0
decoratewith 43 descriptorset 0 = 0
decoratewith 41 descriptorset 0 = 1
decoratewith 12 offset 0 = 1
decoratewith 42 offset 0 = 1
; an id that nothing defines
decorate 59 block = 1
; members
memberwith 12 1 offset 4 = 0
memberwith 12 2 offset 8 = 1
memberwith 12 most offset 8 = 1
memberwith 10 0 offset 0 = 1
member 12 0 nonwritable = 0
member 13 1 restrict = 0
member 42 0 restrict = 1
member 12 0 block = 1
memberwith 12 0 binding 0 = 1
memberwith 12 0 arraystride 4 = 1
memberwith 12 0 builtin workgroupid = 1
memberwith 12 0 specid 0 = 1
";

#[test]
fn decorations_stand_on_targets_that_take_them(rt: HostRuntime) -> Result<(), Fail> {
    let table = Table {
        names: NAMES,
        frame: WITH_VARIABLES,
        cases: DECORATED,
    };
    let wrong = first_wrong(rt.alloc(), &BadDecorations, &table)?;
    assert!(rt; wrong.is_none(), "{wrong:?}");
    Ok(())
}

/// Decorations; a variable; and how many variables do not fit.
const VARIABLES: &str = "
| variable 26 40 private = 0 ; private
| variable 30 40 function = 1 ; of Function
| variable 26 40 workgroup = 1 ; another class
| variable 5 40 private = 1 ; no pointer
decoratewith 40 builtin workgroupid | variable 19 40 input = 0 ; input
| variable 19 40 input = 1 ; input that is no built-in
decorate 40 restrict | variable 19 40 input = 1 ; input with another decoration
decoratewith 40 builtin localinvocationindex | variable 18 40 input = 0 ; index
decoratewith 40 builtin localinvocationindex | variable 19 40 input = 1 ; index that is a vector
decoratewith 40 builtin workgroupid | variable 18 40 input = 1 ; group that is an integer
decoratewith 40 builtin workgroupid | variable 20 40 input = 1 ; group of two
decoratewith 40 builtin workgroupid | variable 51 40 input = 1 ; group of booleans
decoratewith 40 builtin localinvocationindex decoratewith 40 builtin workgroupid | variable 18 40 input = 0 ; an index first
decoratewith 40 builtin workgroupid decoratewith 40 builtin localinvocationindex | variable 18 40 input = 1 ; a group first
decorate 12 block decorate 13 block | variable 21 40 storagebuffer = 0 ; buffer
| variable 21 40 storagebuffer = 1 ; buffer without Block
decorate 40 block | variable 21 40 storagebuffer = 1 ; buffer with a Block of its own
decorate 12 block decorate 13 block | variable 29 40 storagebuffer = 1 ; buffer of an integer
decorate 12 block decorate 13 block | variable 23 40 uniform = 0 ; uniform
| variable 23 40 uniform = 1 ; uniform without Block
decorate 12 block decorate 13 block | variable 25 40 pushconstant = 0 ; push constant
decorate 13 block | variable 25 40 pushconstant = 1 ; push constant without Block
| variable 27 40 workgroup = 0 ; shared struct
decorate 12 block decorate 13 block | variable 22 40 storagebuffer = 0 ; open buffer
decorate 12 block decorate 13 block | variable 24 40 uniform = 1 ; open uniform
| variable 28 40 workgroup = 1 ; shared runtime array
| variablewith 26 40 private 9 = 0 ; initialiser
| variablewith 26 40 private 15 = 0 ; initialiser to specialise
| variablewith 26 40 private 16 = 1 ; initialiser of another type
| variablewith 26 40 private 5 = 1 ; initialiser that is a type
| variablewith 26 40 private 59 = 1 ; initialiser that nothing defines
| variablewith 31 40 workgroup 9 = 1 ; shared initialiser
decorate 12 block decorate 13 block | variablewith 21 40 storagebuffer 9 = 1 ; initialiser of a buffer
";

#[test]
fn variables_fit_their_storage_classes(rt: HostRuntime) -> Result<(), Fail> {
    let table = Table {
        names: NAMES,
        frame: FRAME,
        cases: VARIABLES,
    };
    let wrong = first_wrong(rt.alloc(), &BadGlobals, &table)?;
    assert!(rt; wrong.is_none(), "{wrong:?}");
    Ok(())
}

/// Decorations whose literals are found, some of them twice.
const LITERALS: &str = "
0x00040047 42 33 7 0x00040047 42 33 8 0x00030047 12 2 0x00050048 12 1 35 4 0x00050048 12 1 35 8
";

/// Whether the decorations of ids are found.
fn are_found(found: &Decorations) -> bool {
    found.literal(42, decoration::BINDING) == Some(7)
        && found.literal(42, decoration::DESCRIPTOR_SET) == None
        && found.literal(12, decoration::BLOCK) == Some(0)
        && found.literal(12, decoration::OFFSET) == None
        && found.has(12, decoration::BLOCK)
        && !found.has(42, decoration::BLOCK)
}

/// Whether those of members are found.
fn are_found_at_members(found: &Decorations) -> bool {
    found.member_literal(12, 1, decoration::OFFSET) == Some(4)
        && found.member_literal(12, 0, decoration::OFFSET) == None
        && found.has_member(12, 1, decoration::OFFSET)
        && !found.has_member(1, 12, decoration::OFFSET)
}

/// Whether both are found in a module, with its instructions.
fn has_decorations(alloc: Global, flat: &Flat) -> Result<bool, NoMemory> {
    let found = Decorations::of(alloc, flat.insts())?;
    Ok(
        are_found(&found)
            && are_found_at_members(&found)
            && found.insts().count() == flat.insts().count(),
    )
}

#[test]
fn literals_are_found(rt: HostRuntime) -> Result<(), Fail> {
    let words = framed(rt.alloc(), NAMES, WITH_VARIABLES, LITERALS)?;
    let flat = module(rt.alloc(), words.as_slice());
    assert!(rt; flat.is_some());
    if let Some(flat) = &flat {
        assert!(rt; has_decorations(rt.alloc(), flat)?);
    }
    Ok(())
}

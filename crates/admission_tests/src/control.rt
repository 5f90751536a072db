ghost use Rattle.std.specs.Prelude.{◌≡◌, true, None, IfOk, IfSome};
ghost use Rattle.spv_module.specs.First.{first};
ghost use Rattle.spv_declarations.specs.Broken.{group_3};
ghost use Rattle.spv_types.specs.Whole.{Rises};
ghost use Rattle.spv_functions.specs.Functions.{IsDeclared};

use spv_base::{Fault, NoMemory, Refusal};
use spv_control::parse_all;
use spv_functions::Functions;
use spv_module::{Flat, decode};
use spv_types::tables;
use std::alloc::Global;
use std::test::Fail;

// First words of instructions.
const FUNCTION: u32 = 0x0005_0036;

/// OpFunctionEnd.
const END: u32 = 0x0001_0038;

const LOOP: u32 = 0x0004_00f6;

const SELECTION: u32 = 0x0003_00f7;

const LABEL: u32 = 0x0002_00f8;

const BRANCH: u32 = 0x0002_00f9;

const BRANCH_IF: u32 = 0x0004_00fa;

const RETURN: u32 = 0x0001_00fd;

// Ids.
const MAIN: u32 = 1;

const VOID: u32 = 3;

/// A function without parameters and value.
const ACTION: u32 = 4;

const BOOL: u32 = 5;

const TRUE: u32 = 6;

/// What stands before the functions.
const FRONT: [u32; 31] = [
    // the header; OpCapability Shader; OpMemoryModel Logical GLSL450
    0x0723_0203,
    0x0001_0600,
    0,
    1000,
    0,
    0x0002_0011,
    1,
    0x0003_000e,
    0,
    1,
    // OpEntryPoint GLCompute %1 "main"; OpExecutionMode %1 LocalSize 1 1 1
    0x0005_000f,
    5,
    MAIN,
    0x6e69_616d,
    0,
    0x0006_0010,
    MAIN,
    17,
    1,
    1,
    1,
    // OpTypeVoid, OpTypeFunction, OpTypeBool, OpConstantTrue
    0x0002_0013,
    VOID,
    0x0003_0021,
    ACTION,
    VOID,
    0x0002_0014,
    BOOL,
    0x0003_0029,
    BOOL,
    TRUE,
];

/// A function of one block.
const PLAIN: [u32; 9] = [FUNCTION, VOID, MAIN, 0, ACTION, LABEL, 20, RETURN, END];

/// A function with a branch on a condition, its eighth word, with no merge instruction and no exit: 407.
const BARE: [u32; 18] = [
    FUNCTION, VOID, 30, 0, ACTION, LABEL, 31, BRANCH_IF, TRUE, 32, 33, LABEL, 32, RETURN, LABEL,
    33, RETURN, END,
];

/// A function with a body that branches to its own loop's header: 402.
const TURNING: [u32; 31] = [
    FUNCTION, VOID, 40, 0, ACTION, LABEL, 41, BRANCH, 42, LABEL, 42, LOOP, 45, 44, 0, BRANCH_IF,
    TRUE, 43, 45, LABEL, 43, BRANCH, 42, LABEL, 44, BRANCH, 42, LABEL, 45, RETURN, END,
];

/// What is told of a module: how many trees, the first broken rule and its place, or that it nests too deep.
#[derive(Clone, Copy, Debug, PartialEq, Eq)]
enum Told {
    Read(usize),
    Refused(u16, u32),
    Nesting,
    /// A rule on layout or on declarations is broken.
    Undeclared,
}

/// Whether a module breaks no rule on declarations.
fn is_declared(alloc: Global, flat: &Flat) -> Result<bool, NoMemory>
    requires { Rises flat.now.insts }
    ensures { IfOk result (λ is. is ≡ true → first (group_3 flat.now.insts) ≡ None) }
{
    match tables(alloc, flat) {
        Ok(_) => Ok(true),
        Err(Fault::NoMemory) => Err(NoMemory),
        Err(_) => Ok(false),
    }
}

/// A module of these functions. None where it breaks a rule on layout or on declarations.
fn module(alloc: Global, functions: &[u32]) -> Result<Option<Flat>, NoMemory>
    ensures { IfOk result (λ flat. IfSome flat (λ code. IsDeclared code.insts)) }
{
    let mut words = Vec::new(alloc);
    words.extend_from_slice(&FRONT)?;
    words.extend_from_slice(functions)?;
    if words.len() > 10_000 {
        return Ok(None);
    }
    let Ok(flat) = decode(alloc, &words) else {
        return Ok(None);
    };
    if is_declared(alloc, &flat)? {
        Ok(Some(flat))
    } else {
        Ok(None)
    }
}

/// The words of these functions, one behind the other.
fn joined(alloc: Global, functions: &[&[u32]]) -> Result<Vec<u32>, NoMemory> {
    let mut words = Vec::new(alloc);
    'functions: for function in functions {
        words.extend_from_slice(function)?;
    }
    Ok(words)
}

/// A function of 256 selections, each in the one before.
fn nested(alloc: Global) -> Result<Vec<u32>, NoMemory> {
    let mut words = Vec::new(alloc);
    words.extend_from_slice(&[FUNCTION, VOID, 50, 0, ACTION])?;
    'headers: for k in 0..256u32 {
        words.extend_from_slice(&[LABEL, 100 + k, SELECTION, 400 + k, 0])?;
        words.extend_from_slice(&[BRANCH_IF, TRUE, 101 + k, 400 + k])?;
    }
    words.extend_from_slice(&[LABEL, 356, BRANCH, 655])?;
    'merges: for k in 0..255u32 {
        words.extend_from_slice(&[LABEL, 655 - k, BRANCH, 654 - k])?;
    }
    words.extend_from_slice(&[LABEL, 400, RETURN, END])?;
    Ok(words)
}

/// What is told of the module of these functions.
fn answer_for(alloc: Global, functions: &[&[u32]]) -> Result<Told, NoMemory> {
    let words = joined(alloc, functions)?;
    let Some(flat) = module(alloc, &words)? else {
        return Ok(Told::Undeclared);
    };
    let functions = Functions::of(alloc, &flat)?;
    match parse_all(alloc, &flat, &functions) {
        Ok(read) => Ok(Told::Read(read.bodies.as_slice().len())),
        Err(Fault::Refused(Refusal { rule, at })) => Ok(Told::Refused(rule, at)),
        Err(Fault::Nesting) => Ok(Told::Nesting),
        Err(Fault::NoMemory) => Err(NoMemory),
    }
}

/// Whether of the module of these functions this is told.
fn is_told(alloc: Global, functions: &[&[u32]], wanted: Told) -> Result<bool, NoMemory> {
    Ok(answer_for(alloc, functions)? == wanted)
}

/// Whether modules in which no function nests too deep are read, and refused.
fn shallow_are_told(alloc: Global) -> Result<bool, NoMemory> {
    // the second; two, of which the earlier is told, also where it is of the greater rule
    Ok(
        is_told(alloc, &[&PLAIN], Told::Read(1))?
            && is_told(alloc, &[&PLAIN, &BARE], Told::Refused(407, 47))?
            && is_told(alloc, &[&PLAIN, &BARE, &TURNING], Told::Refused(407, 47))?
            && is_told(alloc, &[&PLAIN, &TURNING, &BARE], Told::Refused(402, 47))?,
    )
}

/// The same of a function that nests too deep, with a refused function before and behind.
fn deep_are_told(alloc: Global, deep: &[u32]) -> Result<bool, NoMemory> {
    Ok(
        is_told(alloc, &[&PLAIN, deep], Told::Nesting)?
            && is_told(alloc, &[&PLAIN, deep, &TURNING], Told::Refused(402, 3384))?
            && is_told(alloc, &[&PLAIN, &BARE, deep], Told::Refused(407, 47))?,
    )
}

#[test]
fn modules_are_read(rt: HostRuntime) -> Result<(), Fail> {
    let nested = nested(rt.alloc())?;
    assert!(rt; shallow_are_told(rt.alloc())?);
    assert!(rt; deep_are_told(rt.alloc(), &nested)?);
    Ok(())
}

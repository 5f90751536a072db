ghost use Rattle.std.specs.Prelude.{ℕ, ◌+◌, ◌*◌, ◌≤◌};

use crate::admission::{Told, answer_to};
use spv_base::NoMemory;
use std::alloc::Global;
use std::test::Fail;

// First words of instructions.
const FUNCTION: u32 = 0x0005_0036;

const END: u32 = 0x0001_0038;

/// OpFunctionCall without arguments.
const CALL: u32 = 0x0004_0039;

const SELECTION: u32 = 0x0003_00f7;

const LABEL: u32 = 0x0002_00f8;

const BRANCH_IF: u32 = 0x0004_00fa;

const RETURN: u32 = 0x0001_00fd;

// The ids of all modules.
const MAIN: u32 = 1;

const VOID: u32 = 3;

/// A function without parameters and value.
const ACTION: u32 = 4;

const BOOL: u32 = 5;

const TRUE: u32 = 6;

/// The header; OpCapability Shader; OpMemoryModel Logical GLSL450.
const HEAD: [u32; 10] = [
    0x0723_0203,
    0x0001_0600,
    0,
    40_000,
    0,
    0x0002_0011,
    1,
    0x0003_000e,
    0,
    1,
];

/// OpEntryPoint GLCompute %1 "main", which lists nothing.
const ENTRY: [u32; 5] = [0x0005_000f, 5, MAIN, 0x6e69_616d, 0];

/// The same, which lists a type.
const LISTING: [u32; 6] = [0x0006_000f, 5, MAIN, 0x6e69_616d, 0, VOID];

/// OpExecutionMode LocalSize 1 1 1; the types and the constant.
const DECLARATIONS: [u32; 16] = [
    0x0006_0010,
    MAIN,
    17,
    1,
    1,
    1,
    0x0002_0013,
    VOID,
    0x0003_0021,
    ACTION,
    VOID,
    0x0002_0014,
    BOOL,
    0x0003_0029,
    BOOL,
    TRUE,
];

/// An entry point; how many nested returns the first function has, and the second; functions behind them; and what is
/// told.
type Case = (&'static [u32], u32, u32, &'static [u32], Told);

/// A function that calls itself.
const CYCLE: [u32; 13] = [
    FUNCTION, VOID, 90, 0, ACTION, LABEL, 91, CALL, VOID, 92, 90, RETURN, END,
];

// The functions begin with the word 31, or 32 where a type is listed. One without selections takes 9 words, and each
// selection 12 more. The first label behind a selection's header stands 14 words behind its function's beginning.
const CASES: [Case; 5] = [
    (&ENTRY, 0, 0, &[], Told::Admitted),
    (&ENTRY, 1, 2, &[], Told::Admitted),
    (&ENTRY, 0, 10, &CYCLE, Told::Refused(601, 169)),
    (&LISTING, 0, 0, &[], Told::Refused(602, 10)),
    (&LISTING, 0, 0, &CYCLE, Told::Refused(602, 10)),
];

/// Adds selections one after the other, each with a return in its one arm, with the ids from `from` on.
fn add_selections(words: &mut Vec<u32>, from: u32, count: u32) -> Result<(), NoMemory>
    requires { from + 2 * count ≤ 4000000000 }
{
    'each: for k in 0..count {
        let arm = from + 2 * k;
        let merge = arm + 1;
        words.extend_from_slice(&[
            SELECTION, merge, 0, BRANCH_IF, TRUE, arm, merge, LABEL, arm, RETURN, LABEL, merge,
        ])?;
    }
    Ok(())
}

/// Adds a function with so many nested returns, with the ids from `from` on, and a return that is not nested.
fn add_function(words: &mut Vec<u32>, id: u32, from: u32, count: u32) -> Result<(), NoMemory>
    requires { from + 2 * count ≤ 3000000000 }
{
    words.extend_from_slice(&[FUNCTION, VOID, id, 0, ACTION, LABEL, from])?;
    add_selections(words, from + 1, count)?;
    words.extend_from_slice(&[RETURN, END])?;
    Ok(())
}

/// The words of the functions of a case.
fn functions(alloc: Global, case: &Case) -> Result<Vec<u32>, NoMemory> {
    let mut words = Vec::new(alloc);
    if case.1 <= 16_383 && case.2 <= 16_383 {
        add_function(&mut words, MAIN, 100, case.1)?;
        add_function(&mut words, 80, 101 + 2 * case.1, case.2)?;
        words.extend_from_slice(case.3)?;
    }
    Ok(words)
}

/// The words of a module of an entry point and functions.
fn module(alloc: Global, entry: &[u32], functions: &[u32]) -> Result<Vec<u32>, NoMemory> {
    let mut words = Vec::new(alloc);
    words.extend_from_slice(&HEAD)?;
    words.extend_from_slice(entry)?;
    words.extend_from_slice(&DECLARATIONS)?;
    words.extend_from_slice(functions)?;
    Ok(words)
}

/// The words of the module of a case.
fn words_of(alloc: Global, case: &Case) -> Result<Vec<u32>, NoMemory> {
    let functions = functions(alloc, case)?;
    module(alloc, case.0, &functions)
}

/// Whether of the module of a case that is told which should be.
fn is_told(alloc: Global, case: &Case) -> Result<bool, NoMemory> {
    let words = words_of(alloc, case)?;
    Ok(answer_to(alloc, &words)? == Some(case.4))
}

#[test]
fn rules_on_the_whole_module_are_told(rt: HostRuntime) -> Result<(), Fail> {
    'cases: for case in CASES.as_slice() {
        let wanted = case.4;
        assert!(rt; is_told(rt.alloc(), case)?, "{wanted:?}");
    }
    Ok(())
}

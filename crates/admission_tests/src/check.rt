ghost use Rattle.std.specs.Prelude.{◌≡◌, ◌<◌, count_by, IfOk, IfSome};
ghost use Rattle.spv_module.specs.Code.{is_function};
ghost use Rattle.spv_functions.specs.Functions.{AreShapes, IsDeclared};
ghost use Rattle.spv_parse.specs.Functions.{IsLaidOut};
ghost use Rattle.spv_types.specs.Whole.{Rises};

use spv_base::{Fault, NoMemory};
use spv_check::{check, check_body};
use spv_control::parse_all;
use spv_flow::Shape;
use spv_functions::Functions;
use spv_module::{Flat, decode};
use spv_types::{Tables, tables};
use std::alloc::Global;
use std::test::Fail;

// First words of instructions.
const FUNCTION: u32 = 0x0005_0036;

const PARAMETER: u32 = 0x0003_0037;

/// OpFunctionEnd.
const END: u32 = 0x0001_0038;

/// OpCopyObject.
const COPY: u32 = 0x0004_0053;

/// OpIAdd.
const SUM: u32 = 0x0005_0080;

const SELECTION: u32 = 0x0003_00f7;

const LABEL: u32 = 0x0002_00f8;

const BRANCH: u32 = 0x0002_00f9;

const BRANCH_IF: u32 = 0x0004_00fa;

const RETURN: u32 = 0x0001_00fd;

/// OpReturnValue.
const RETURNING: u32 = 0x0002_00fe;

const LINE: u32 = 0x0004_0008;

// Ids.
const MAIN: u32 = 1;

const VOID: u32 = 3;

/// A function without parameters and value; one from a boolean to a boolean.
const ACTION: u32 = 4;

const TEST: u32 = 9;

const BOOL: u32 = 5;

const TRUE: u32 = 6;

const FALSE: u32 = 8;

const UINT: u32 = 15;

const SEVEN: u32 = 16;

const POINTER: u32 = 17;

/// What stands before the functions.
const FRONT: [u32; 50] = [
    // the header; OpCapability Shader; OpMemoryModel Logical GLSL450
    0x0723_0203,
    0x0001_0600,
    0,
    60,
    0,
    0x0002_0011,
    1,
    0x0003_000e,
    0,
    1,
    // OpEntryPoint GLCompute %1 "main"; OpExecutionMode %1 LocalSize 1 1 1
    0x0005_000f,
    5,
    MAIN,
    0x6e69_616d,
    0,
    0x0006_0010,
    MAIN,
    17,
    1,
    1,
    1,
    // OpTypeVoid, OpTypeFunction, OpTypeBool, OpTypeFunction
    0x0002_0013,
    VOID,
    0x0003_0021,
    ACTION,
    VOID,
    0x0002_0014,
    BOOL,
    0x0004_0021,
    TEST,
    BOOL,
    BOOL,
    // OpConstantTrue, OpConstantFalse
    0x0003_0029,
    BOOL,
    TRUE,
    0x0003_002a,
    BOOL,
    FALSE,
    // OpTypeInt 32 0, OpConstant 7, OpTypePointer Function
    0x0004_0015,
    UINT,
    32,
    0,
    0x0004_002b,
    UINT,
    SEVEN,
    7,
    0x0004_0020,
    POINTER,
    7,
    UINT,
];

/// A rule and its place.
type Told = Option<(u16, u32)>;

/// What it is, the functions of a module, the first broken rule, the number of a function, and the first broken rule in it.
type Case = (&'static str, &'static [u32], Told, u32, Told);

const CASES: [Case; 8] = [
    (
        "none broken",
        &[
            FUNCTION, VOID, MAIN, 0, ACTION, LABEL, 20, COPY, BOOL, 40, TRUE, COPY, BOOL, 41, 40,
            RETURN, END,
        ],
        None,
        0,
        None,
    ),
    (
        "503 before a sum with a truth value",
        &[
            FUNCTION, VOID, MAIN, 0, ACTION, LABEL, 20, COPY, BOOL, 41, 40, COPY, BOOL, 40, TRUE,
            SUM, UINT, 42, SEVEN, TRUE, RETURN, END,
        ],
        Some((503, 57)),
        0,
        Some((503, 57)),
    ),
    (
        "a sum with a truth value before 503",
        &[
            FUNCTION, VOID, MAIN, 0, ACTION, LABEL, 20, SUM, UINT, 42, SEVEN, TRUE, COPY, BOOL, 41,
            40, COPY, BOOL, 40, TRUE, RETURN, END,
        ],
        Some((501, 57)),
        0,
        Some((501, 57)),
    ),
    (
        "501 and 503 at one instruction",
        &[
            FUNCTION, VOID, MAIN, 0, ACTION, LABEL, 20, SUM, UINT, 42, 43, TRUE, COPY, UINT, 43,
            SEVEN, RETURN, END,
        ],
        Some((501, 57)),
        0,
        Some((501, 57)),
    ),
    (
        "503 and 507 at one instruction, and none in the other function",
        &[
            FUNCTION, VOID, MAIN, 0, ACTION, LABEL, 20, RETURNING, 33, END, FUNCTION, BOOL, 30, 0,
            TEST, PARAMETER, BOOL, 33, LABEL, 31, RETURNING, 33, END,
        ],
        Some((503, 57)),
        1,
        None,
    ),
    (
        "503 in the second function",
        &[
            FUNCTION, VOID, MAIN, 0, ACTION, LABEL, 20, COPY, BOOL, 40, TRUE, RETURN, END,
            FUNCTION, BOOL, 30, 0, TEST, PARAMETER, BOOL, 33, LABEL, 31, COPY, BOOL, 42, 40,
            RETURNING, 33, END,
        ],
        Some((503, 73)),
        1,
        Some((503, 73)),
    ),
    (
        "a value of one arm behind the merge block",
        &[
            FUNCTION, VOID, MAIN, 0, ACTION, LABEL, 20, SELECTION, 23, 0, BRANCH_IF, TRUE, 21, 22,
            LABEL, 21, COPY, BOOL, 40, TRUE, BRANCH, 23, LABEL, 22, BRANCH, 23, LABEL, 23, COPY,
            BOOL, 41, 40, RETURN, END,
        ],
        Some((503, 78)),
        0,
        Some((503, 78)),
    ),
    (
        "a line mark that names a later value",
        &[
            FUNCTION, VOID, MAIN, 0, ACTION, LABEL, 20, LINE, 40, 1, 1, COPY, BOOL, 40, TRUE,
            RETURN, END,
        ],
        None,
        0,
        None,
    ),
];

/// A module of these functions. None where it breaks a rule on layout.
fn module(alloc: Global, functions: &[u32]) -> Result<Option<Flat>, NoMemory>
    ensures laid_out { IfOk result (λ flat. IfSome flat (λ code. IsLaidOut code.insts)) }
    ensures rises { IfOk result (λ flat. IfSome flat (λ code. Rises code.insts)) }
{
    let mut words = Vec::new(alloc);
    words.extend_from_slice(&FRONT)?;
    words.extend_from_slice(functions)?;
    if words.len() > 1000 {
        return Ok(None);
    }
    match decode(alloc, &words) {
        Ok(flat) => Ok(Some(flat)),
        Err(_) => Ok(None),
    }
}

fn told(answer: &Result<(), Fault>) -> Told {
    match answer {
        Ok(()) => None,
        Err(Fault::Refused(refusal)) => Some((refusal.rule, refusal.at)),
        Err(_) => Some((0, 0)),
    }
}

/// The first broken rule of a module, and the first one in its function numbered `f`.
fn both_told<'a>(
    alloc: Global,
    tables: &'a Tables<'a>,
    flat: &Flat,
    shapes: &[Shape],
    f: u32,
) -> (Told, Told)
    requires same { tables.now ≡ flat.now.insts }
    requires rises { Rises flat.now.insts }
    requires declared { IsDeclared flat.now.insts }
    requires within { f < count_by is_function flat.now.insts }
    requires shapes { AreShapes flat.now.insts shapes.now }
{
    let whole = check(alloc, tables, flat, shapes);
    let one = check_body(alloc, tables, flat, f, &shapes[f as usize]);
    (told(&whole), told(&one))
}

/// The first broken rule of a module with these functions, and the first one in its function numbered `f`. None where the
/// module is refused before.
fn first_told(alloc: Global, functions: &[u32], f: u32) -> Result<Option<(Told, Told)>, NoMemory> {
    let Some(flat) = module(alloc, functions)? else {
        return Ok(None);
    };
    let Ok(kept) = tables(alloc, &flat) else {
        return Ok(None);
    };
    if f >= flat.functions() {
        return Ok(None);
    }
    let functions = Functions::of(alloc, &flat)?;
    let Ok(read) = parse_all(alloc, &flat, &functions) else {
        return Ok(None);
    };
    Ok(Some(both_told(alloc, &kept, &flat, &read.shapes, f)))
}

/// Whether of a case that is told which should be.
fn is_told(alloc: Global, case: &Case) -> Result<bool, NoMemory> {
    Ok(first_told(alloc, case.1, case.3)? == Some((case.2, case.4)))
}

#[test]
fn first_broken_rules_are_told(rt: HostRuntime) -> Result<(), Fail> {
    'cases: for case in CASES.as_slice() {
        let name = case.0;
        assert!(rt; is_told(rt.alloc(), case)?, "{name}");
    }
    Ok(())
}

ghost use Rattle.std.specs.Prelude.{◌≡◌, ◌<◌, ◌-◌, ◌+◌, ◌^◌, IfOk, IfSome, slice_get, Some};
ghost use Rattle.spv_normal.specs.Lines.{without_marks};
ghost use Rattle.spv_blocks.specs.Cutting.{blocks_of, function_at, starts as starts_in};
ghost use Rattle.spv_parse.specs.Functions.{IsLaidOut};
ghost use Rattle.spv_scopes.specs.Scopes.{AreScopes};
ghost use Rattle.spv_spelling.specs.Whole.{IsText};
ghost use Rattle.spv_walk.specs.Numbering.{HasOwnLabels};
ghost use Rattle.spv_availability.specs.Availability.{code_of};

use spv_availability::{Places, are_available};
use spv_base::NoMemory;
use spv_blocks::{Function, Labels, starts};
use spv_flow::{Flow, has_own_labels};
use spv_ids::Definitions;
use spv_module::{Flat, decode};
use spv_parse::parse_function;
use spv_scopes::Scopes;
use std::alloc::Global;
use std::collections::BTreeSet;
use std::test::Fail;

// First words of instructions.
const FUNCTION: u32 = 0x0005_0036;

const PARAMETER: u32 = 0x0003_0037;

/// OpFunctionEnd.
const END: u32 = 0x0001_0038;

/// OpCopyObject.
const COPY: u32 = 0x0004_0053;

/// OpPhi with two pairs.
const PHI: u32 = 0x0007_00f5;

const LOOP: u32 = 0x0004_00f6;

const SELECTION: u32 = 0x0003_00f7;

const LABEL: u32 = 0x0002_00f8;

const BRANCH: u32 = 0x0002_00f9;

const BRANCH_IF: u32 = 0x0004_00fa;

const RETURN: u32 = 0x0001_00fd;

/// OpReturnValue.
const RETURNING: u32 = 0x0002_00fe;

// Ids.
const MAIN: u32 = 1;

const VOID: u32 = 3;

/// A function without parameters and value; one from a boolean to a boolean.
const ACTION: u32 = 4;

const TEST: u32 = 9;

const BOOL: u32 = 5;

const TRUE: u32 = 6;

const FALSE: u32 = 8;

const UINT: u32 = 15;

const SEVEN: u32 = 16;

const POINTER: u32 = 17;

/// What stands before the functions.
const FRONT: [u32; 50] = [
    // the header; OpCapability Shader; OpMemoryModel Logical GLSL450
    0x0723_0203,
    0x0001_0600,
    0,
    60,
    0,
    0x0002_0011,
    1,
    0x0003_000e,
    0,
    1,
    // OpEntryPoint GLCompute %1 "main"; OpExecutionMode %1 LocalSize 1 1 1
    0x0005_000f,
    5,
    MAIN,
    0x6e69_616d,
    0,
    0x0006_0010,
    MAIN,
    17,
    1,
    1,
    1,
    // OpTypeVoid, OpTypeFunction, OpTypeBool, OpTypeFunction
    0x0002_0013,
    VOID,
    0x0003_0021,
    ACTION,
    VOID,
    0x0002_0014,
    BOOL,
    0x0004_0021,
    TEST,
    BOOL,
    BOOL,
    // OpConstantTrue, OpConstantFalse
    0x0003_0029,
    BOOL,
    TRUE,
    0x0003_002a,
    BOOL,
    FALSE,
    // OpTypeInt 32 0, OpConstant 7, OpTypePointer Function
    0x0004_0015,
    UINT,
    32,
    0,
    0x0004_002b,
    UINT,
    SEVEN,
    7,
    0x0004_0020,
    POINTER,
    7,
    UINT,
];

/// What it is, the functions of a module, the number of one of them, and the ids of its instructions of which an operand is not
/// available.
type Case = (&'static str, &'static [u32], u32, &'static [u32]);

const CASES: [Case; 12] = [
    (
        "a value of one arm behind the merge block",
        &[
            FUNCTION, VOID, MAIN, 0, ACTION, LABEL, 20, SELECTION, 23, 0, BRANCH_IF, TRUE, 21, 22,
            LABEL, 21, COPY, BOOL, 40, TRUE, BRANCH, 23, LABEL, 22, BRANCH, 23, LABEL, 23, COPY,
            BOOL, 41, 40, RETURN, END,
        ],
        0,
        &[41],
    ),
    (
        "the same where the other arm returns",
        &[
            FUNCTION, VOID, MAIN, 0, ACTION, LABEL, 20, SELECTION, 23, 0, BRANCH_IF, TRUE, 21, 22,
            LABEL, 21, COPY, BOOL, 40, TRUE, BRANCH, 23, LABEL, 22, RETURN, LABEL, 23, COPY, BOOL,
            41, 40, RETURN, END,
        ],
        0,
        &[],
    ),
    (
        "a value of each arm in an OpPhi",
        &[
            FUNCTION, VOID, MAIN, 0, ACTION, LABEL, 20, SELECTION, 23, 0, BRANCH_IF, TRUE, 21, 22,
            LABEL, 21, COPY, BOOL, 40, TRUE, BRANCH, 23, LABEL, 22, BRANCH, 23, LABEL, 23, PHI,
            BOOL, 41, 40, 21, TRUE, 22, RETURN, END,
        ],
        0,
        &[],
    ),
    (
        "a value of the other arm in an OpPhi",
        &[
            FUNCTION, VOID, MAIN, 0, ACTION, LABEL, 20, SELECTION, 23, 0, BRANCH_IF, TRUE, 21, 22,
            LABEL, 21, COPY, BOOL, 40, TRUE, BRANCH, 23, LABEL, 22, BRANCH, 23, LABEL, 23, PHI,
            BOOL, 41, TRUE, 21, 40, 22, RETURN, END,
        ],
        0,
        &[41],
    ),
    (
        "a value of one arm in the other",
        &[
            FUNCTION, VOID, MAIN, 0, ACTION, LABEL, 20, SELECTION, 23, 0, BRANCH_IF, TRUE, 21, 22,
            LABEL, 21, COPY, BOOL, 40, TRUE, BRANCH, 23, LABEL, 22, COPY, BOOL, 41, 40, BRANCH, 23,
            LABEL, 23, RETURN, END,
        ],
        0,
        &[41],
    ),
    (
        "a value of the header in an arm and behind",
        &[
            FUNCTION, VOID, MAIN, 0, ACTION, LABEL, 20, COPY, BOOL, 40, TRUE, SELECTION, 23, 0,
            BRANCH_IF, 40, 21, 23, LABEL, 21, COPY, BOOL, 41, 40, BRANCH, 23, LABEL, 23, COPY,
            BOOL, 42, 40, RETURN, END,
        ],
        0,
        &[],
    ),
    (
        "a value of the continue target in the header of a loop",
        &[
            FUNCTION, VOID, MAIN, 0, ACTION, LABEL, 20, BRANCH, 21, LABEL, 21, PHI, BOOL, 40, TRUE,
            20, 42, 23, COPY, BOOL, 43, 42, LOOP, 24, 23, 0, BRANCH_IF, 40, 22, 24, LABEL, 22,
            BRANCH, 23, LABEL, 23, COPY, BOOL, 42, 40, BRANCH, 21, LABEL, 24, COPY, BOOL, 44, 40,
            RETURN, END,
        ],
        0,
        &[43],
    ),
    (
        "a parameter of another function",
        &[
            FUNCTION, VOID, MAIN, 0, ACTION, LABEL, 20, COPY, BOOL, 41, 33, RETURN, END, FUNCTION,
            BOOL, 30, 0, TEST, PARAMETER, BOOL, 33, LABEL, 31, RETURNING, 33, END,
        ],
        0,
        &[41],
    ),
    (
        "a parameter, and a value of another function",
        &[
            FUNCTION, VOID, MAIN, 0, ACTION, LABEL, 20, COPY, BOOL, 40, TRUE, RETURN, END,
            FUNCTION, BOOL, 30, 0, TEST, PARAMETER, BOOL, 33, LABEL, 31, COPY, BOOL, 41, 33, COPY,
            BOOL, 42, 40, RETURNING, 33, END,
        ],
        1,
        &[42],
    ),
    (
        "the value of the instruction itself",
        &[
            FUNCTION, VOID, MAIN, 0, ACTION, LABEL, 20, COPY, BOOL, 41, 41, RETURN, END,
        ],
        0,
        &[41],
    ),
    (
        "a value of its block that comes later, and one that comes before",
        &[
            FUNCTION, VOID, MAIN, 0, ACTION, LABEL, 20, COPY, BOOL, 41, 40, COPY, BOOL, 40, TRUE,
            COPY, BOOL, 42, 40, RETURN, END,
        ],
        0,
        &[41],
    ),
    (
        "an id that nothing defines",
        &[
            FUNCTION, VOID, MAIN, 0, ACTION, LABEL, 20, COPY, BOOL, 41, 50, RETURN, END,
        ],
        0,
        &[41],
    ),
];

/// A module with these words behind what stands before the functions.
fn module(alloc: Global, functions: &[u32]) -> Result<Option<Flat>, NoMemory>
    ensures { IfOk result (λ flat. IfSome flat (λ code. IsLaidOut code.insts)) }
{
    let mut words = Vec::new(alloc);
    words.extend_from_slice(&FRONT)?;
    words.extend_from_slice(functions)?;
    if words.len() > 10_000 {
        return Ok(None);
    }
    match decode(alloc, &words) {
        Ok(flat) => Ok(Some(flat)),
        Err(_) => Ok(None),
    }
}

/// The number of the instruction that begins the function numbered `f`, counted from 0.
fn start(alloc: Global, flat: &Flat, f: u32) -> Result<Option<u32>, NoMemory>
    ensures { IfOk result (λ first. IfSome first (λ k. slice_get (starts_in flat.now.insts) f ≡ Some k)) }
{
    let starts = starts(alloc, flat)?;
    Ok(starts.get(f as usize).copied())
}

/// The scopes of a function, where no rule on structured control flow is broken in it.
#[tactic(auto, using(crate::proofs::Spelled::clean_blocks))]
fn scopes_of(
    alloc: Global,
    flat: &Flat,
    first: u32,
    function: &Function,
    labels: &Labels<'_>,
) -> Result<Option<Scopes>, NoMemory>
    requires text { IsText (without_marks (function_at first flat.now.insts)) }
    requires blocks { function.now ≡ blocks_of (function_at first flat.now.insts) }
    requires same { labels.now ≡ function.now }
    requires own { HasOwnLabels function.now }
    ensures { IfOk result (λ found. IfSome found (λ scopes. AreScopes labels.now scopes)) }
{
    let pointers = BTreeSet::new(alloc);
    if labels.count() == 0 {
        return Ok(None);
    }
    let Ok(_parsed) = parse_function(alloc, flat, &pointers, first) else {
        return Ok(None);
    };
    match Flow::of(alloc, &pointers, function, labels)? {
        Ok(flow) => Ok(Some(Scopes::of(alloc, labels, flow.walked())?)),
        Err(_) => Ok(None),
    }
}

/// The ids of the instructions of the function numbered `f` of which an operand is not available.
fn unavailable(
    alloc: Global,
    flat: &Flat,
    f: u32,
    scopes: &Scopes,
    labels: &Labels,
) -> Result<Vec<u32>, NoMemory>
    requires labels { labels.now ≡ code_of flat.now.insts (f + 1) }
    requires few { f < 2 ^ 32 - 1 }
    requires scopes { AreScopes labels.now scopes.now }
{
    let places = Places::of(alloc, flat)?;
    let definitions = Definitions::of(alloc, flat)?;
    let mut found = Vec::new(alloc);
    'instructions: for k in 0..flat.count() {
        let inst = flat.at(k);
        if places.function(k) == f + 1
            && !are_available(&places, &definitions, scopes, labels, k, &inst)
        {
            found.push(inst.result().map_or(0, |id| id.number()))?;
        }
    }
    Ok(found)
}

/// The same of a module with these words; none where it is refused before.
#[tactic(auto, using(crate::proofs::Functions::code_is))]
fn unavailable_in(alloc: Global, functions: &[u32], f: u32) -> Result<Option<Vec<u32>>, NoMemory> {
    let Some(flat) = module(alloc, functions)? else {
        return Ok(None);
    };
    if f >= flat.functions() {
        return Ok(None);
    }
    let Some(first) = start(alloc, &flat, f)? else {
        return Ok(None);
    };
    let function = Function::at(alloc, &flat, first)?;
    let labels = Labels::of(alloc, &function)?;
    if !has_own_labels(&function, &labels) {
        return Ok(None);
    }
    flat.insts().each_is_instruction();
    let Some(scopes) = scopes_of(alloc, &flat, first, &function, &labels)? else {
        return Ok(None);
    };
    Ok(Some(unavailable(alloc, &flat, f, &scopes, &labels)?))
}

#[test]
fn unavailable_operands_are_told(rt: HostRuntime) -> Result<(), Fail> {
    for (case, functions, f, expected) in CASES {
        let found = unavailable_in(rt.alloc(), functions, f)?;
        assert!(rt; found.is_some(), "{case}");
        if let Some(found) = &found {
            assert_eq!(rt; found.as_slice(), expected, "{case}");
        }
    }
    Ok(())
}

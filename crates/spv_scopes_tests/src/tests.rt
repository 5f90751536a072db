ghost use Rattle.std.specs.Prelude.{◌≡◌, IfOk, IfSome, slice_get};
ghost use Rattle.spv_blocks.specs.Cutting.{blocks_of, function_at, starts as starts_in};
ghost use Rattle.spv_normal.specs.Lines.{without_marks};
ghost use Rattle.spv_parse.specs.Functions.{IsLaidOut};
ghost use Rattle.spv_scopes.specs.Scopes.{AreScopes};
ghost use Rattle.spv_spelling.specs.Whole.{IsText};
ghost use Rattle.spv_walk.specs.Numbering.{HasOwnLabels};

use spv_base::NoMemory;
use spv_blocks::{Function, Labels, starts};
use spv_flow::{Flow, has_own_labels};
use spv_module::{Flat, decode};
use spv_parse::parse_function;
use spv_scopes::Scopes;
use std::alloc::Global;
use std::collections::BTreeSet;
use std::test::Fail;

// First words of instructions.
const SELECTION: u32 = 0x0003_00f7;

const LOOP: u32 = 0x0004_00f6;

const LABEL: u32 = 0x0002_00f8;

const BRANCH: u32 = 0x0002_00f9;

const BRANCH_IF: u32 = 0x0004_00fa;
/// OpSwitch with two cases.
const SWITCH: u32 = 0x0007_00fb;

const RETURN: u32 = 0x0001_00fd;

const UNREACHABLE: u32 = 0x0001_00ff;

const FUNCTION_END: u32 = 0x0001_0038;

/// The type of a condition, a condition, and a selector.
const BOOL: u32 = 5;

const CONDITION: u32 = 6;

const SELECTOR: u32 = 16;

/// What stands before the first label of the function.
const FRONT: [u32; 44] = [
    // the header; OpCapability Shader; OpMemoryModel Logical GLSL450
    0x0723_0203,
    0x0001_0600,
    0,
    60,
    0,
    0x0002_0011,
    1,
    0x0003_000e,
    0,
    1,
    // OpEntryPoint GLCompute %1 "main"; OpExecutionMode %1 LocalSize 1 1 1
    0x0005_000f,
    5,
    1,
    0x6e69_616d,
    0,
    0x0006_0010,
    1,
    17,
    1,
    1,
    1,
    // %3 = OpTypeVoid; %4 = OpTypeFunction %3; %5 = OpTypeBool; %6 = OpConstantTrue %5
    0x0002_0013,
    3,
    0x0003_0021,
    4,
    3,
    0x0002_0014,
    BOOL,
    0x0003_0029,
    BOOL,
    CONDITION,
    // %15 = OpTypeInt 32 0; %16 = OpConstant %15 7
    0x0004_0015,
    15,
    32,
    0,
    0x0004_002b,
    15,
    SELECTOR,
    7,
    // %1 = OpFunction %3 None %4
    0x0005_0036,
    3,
    1,
    0,
    4,
];

/// A block, another one, and whether every way to the other one passes it.
type Pair = (u32, u32, bool);

/// A function, from its first label on, and pairs of its blocks.
type Case = (&'static [u32], &'static [Pair]);

const CASES: [Case; 9] = [
    // one block
    (&[LABEL, 20, RETURN], &[(20, 20, false)]),
    // a selection
    (
        &[
            LABEL, 20, SELECTION, 23, 0, BRANCH_IF, CONDITION, 21, 22, LABEL, 21, BRANCH, 23,
            LABEL, 22, BRANCH, 23, LABEL, 23, RETURN,
        ],
        &[
            (20, 21, true),
            (20, 22, true),
            (20, 23, true),
            (21, 22, false),
            (21, 23, false),
            (22, 23, false),
            (23, 20, false),
            (23, 23, false),
        ],
    ),
    // one that one arm alone leaves at its merge block
    (
        &[
            LABEL, 20, SELECTION, 23, 0, BRANCH_IF, CONDITION, 21, 22, LABEL, 21, RETURN, LABEL,
            22, BRANCH, 23, LABEL, 23, RETURN,
        ],
        &[(20, 23, true), (21, 23, false), (22, 23, true)],
    ),
    // one whose merge block no branch leads to
    (
        &[
            LABEL,
            20,
            SELECTION,
            23,
            0,
            BRANCH_IF,
            CONDITION,
            21,
            22,
            LABEL,
            21,
            RETURN,
            LABEL,
            22,
            RETURN,
            LABEL,
            23,
            UNREACHABLE,
        ],
        &[(20, 23, true), (21, 23, false), (22, 23, false)],
    ),
    // a switch
    (
        &[
            LABEL, 20, SELECTION, 23, 0, SWITCH, SELECTOR, 23, 1, 21, 2, 22, LABEL, 21, BRANCH, 23,
            LABEL, 22, BRANCH, 23, LABEL, 23, RETURN,
        ],
        &[
            (20, 22, true),
            (21, 22, false),
            (21, 23, false),
            (20, 23, true),
        ],
    ),
    // a loop
    (
        &[
            LABEL, 20, BRANCH, 21, LABEL, 21, LOOP, 24, 23, 0, BRANCH_IF, CONDITION, 22, 24, LABEL,
            22, BRANCH, 23, LABEL, 23, BRANCH, 21, LABEL, 24, RETURN,
        ],
        &[
            (20, 21, true),
            (21, 21, false),
            (23, 21, false),
            (22, 23, true),
            (21, 24, true),
            (22, 24, false),
            (23, 24, false),
            (20, 24, true),
        ],
    ),
    // a loop whose body leaves it or goes on
    (
        &[
            LABEL, 20, BRANCH, 21, LABEL, 21, LOOP, 24, 23, 0, BRANCH, 22, LABEL, 22, BRANCH_IF,
            CONDITION, 24, 25, LABEL, 25, BRANCH_IF, CONDITION, 27, 23, LABEL, 27, BRANCH, 23,
            LABEL, 23, BRANCH, 21, LABEL, 24, RETURN,
        ],
        &[
            (22, 24, true),
            (25, 24, false),
            (22, 23, true),
            (25, 23, true),
            (27, 23, false),
        ],
    ),
    // a loop whose continue target no branch leads to
    (
        &[
            LABEL, 20, BRANCH, 21, LABEL, 21, LOOP, 24, 23, 0, BRANCH_IF, CONDITION, 22, 24, LABEL,
            22, RETURN, LABEL, 23, BRANCH, 21, LABEL, 24, RETURN,
        ],
        &[
            (21, 23, true),
            (22, 23, false),
            (21, 24, true),
            (22, 24, false),
        ],
    ),
    // the same, where it is the header of a loop, and no branch leads to the merge block
    (
        &[
            LABEL, 20, BRANCH, 21, LABEL, 21, LOOP, 24, 23, 0, BRANCH, 22, LABEL, 22, RETURN,
            LABEL, 23, LOOP, 26, 25, 0, BRANCH_IF, CONDITION, 27, 26, LABEL, 27, BRANCH, 25, LABEL,
            25, BRANCH, 23, LABEL, 26, BRANCH, 21, LABEL, 24, RETURN,
        ],
        &[
            (21, 23, true),
            (22, 23, false),
            (25, 23, false),
            (23, 26, true),
            (27, 26, false),
            (21, 24, true),
            (23, 24, false),
        ],
    ),
];

/// A module of one function with these instructions.
fn module(alloc: Global, insts: &[u32]) -> Result<Option<Flat>, NoMemory>
    ensures { IfOk result (λ flat. IfSome flat (λ code. IsLaidOut code.insts)) }
{
    let mut words = Vec::new(alloc);
    words.extend_from_slice(&FRONT)?;
    words.extend_from_slice(insts)?;
    words.push(FUNCTION_END)?;
    if words.len() > 1000 {
        return Ok(None);
    }
    match decode(alloc, &words) {
        Ok(flat) => Ok(Some(flat)),
        Err(_) => Ok(None),
    }
}

/// The number of the first OpFunction.
fn first_function(alloc: Global, flat: &Flat) -> Result<Option<u32>, NoMemory>
    ensures { IfOk result (λ first. IfSome first (λ k. slice_get (starts_in flat.now.insts) 0 ≡ Some k)) }
{
    let starts = starts(alloc, flat)?;
    Ok(starts.get(0).copied())
}

/// The scopes of the first function of a module, where no rule on structured control flow is broken in it.
#[tactic(auto, using(crate::proofs::Spelled::clean_blocks))]
fn scopes(
    alloc: Global,
    flat: &Flat,
    first: u32,
    function: &Function,
    labels: &Labels<'_>,
) -> Result<Option<Scopes>, NoMemory>
    requires text { IsText (without_marks (function_at first flat.now.insts)) }
    requires blocks { function.now ≡ blocks_of (function_at first flat.now.insts) }
    requires same { labels.now ≡ function.now }
    requires own { HasOwnLabels function.now }
    ensures { IfOk result (λ found. IfSome found (λ scopes. AreScopes labels.now scopes)) }
{
    let pointers = BTreeSet::new(alloc);
    if labels.count() == 0 {
        return Ok(None);
    }
    let Ok(_parsed) = parse_function(alloc, flat, &pointers, first) else {
        return Ok(None);
    };
    match Flow::of(alloc, &pointers, function, labels)? {
        Ok(flow) => Ok(Some(Scopes::of(alloc, labels, flow.walked())?)),
        Err(_) => Ok(None),
    }
}

/// Whether a pair is answered as it says.
fn is_answered(scopes: &Scopes, labels: &Labels<'_>, pair: &Pair) -> bool
    requires { AreScopes labels.now scopes.now }
{
    labels.is_label(pair.0)
        && labels.is_label(pair.1)
        && scopes.passes(labels, pair.0, pair.1) == pair.2
}

/// Whether all pairs are.
fn are_answered(scopes: &Scopes, labels: &Labels<'_>, pairs: &[Pair]) -> bool
    requires { AreScopes labels.now scopes.now }
{
    'pairs: for pair in pairs {
        if !is_answered(scopes, labels, pair) {
            return false;
        }
    }
    true
}

/// Whether the scopes of the one function of a module are as the pairs say.
fn agrees(alloc: Global, insts: &[u32], pairs: &[Pair]) -> Result<bool, NoMemory> {
    let Some(flat) = module(alloc, insts)? else {
        return Ok(false);
    };
    if flat.functions() == 0 {
        return Ok(false);
    }
    let Some(first) = first_function(alloc, &flat)? else {
        return Ok(false);
    };
    let function = Function::at(alloc, &flat, first)?;
    let labels = Labels::of(alloc, &function)?;
    if !has_own_labels(&function, &labels) {
        return Ok(false);
    }
    flat.insts().each_is_instruction();
    match scopes(alloc, &flat, first, &function, &labels)? {
        Some(scopes) => Ok(are_answered(&scopes, &labels, pairs)),
        None => Ok(false),
    }
}

#[test]
fn scopes_are_told(rt: HostRuntime) -> Result<(), Fail> {
    'cases: for case in CASES.as_slice() {
        assert!(rt; agrees(rt.alloc(), case.0, case.1)?);
    }
    Ok(())
}

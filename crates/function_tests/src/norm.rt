ghost use Rattle.std.specs.Prelude.{◌≡◌, ◌++◌, true, [], ◌∷◌, None, IfOk, IfSome, OnOk};
ghost use Rattle.spv_module.specs.First.{first};
ghost use Rattle.spv_declarations.specs.Broken.{group_3};
ghost use Rattle.spv_types.specs.Whole.{Rises};
ghost use Rattle.spv_functions.specs.Functions.{IsDeclared};
ghost use Rattle.spv_norm.specs.Bodies.{AreTrees};

use spv_base::{Fault, NoMemory};
use spv_functions::parse;
use spv_module::{Flat, InstList, decode};
use spv_norm::norm;
use spv_tree::Body;
use spv_types::tables;
use std::alloc::Global;
use std::test::Fail;

// First words of instructions.
const SOURCE: u32 = 0x0003_0003;

/// OpSource with a file.
const SOURCE_OF_FILE: u32 = 0x0004_0003;

const NAME: u32 = 0x0003_0005;

const STRING: u32 = 0x0003_0007;

const LINE: u32 = 0x0004_0008;

const FUNCTION: u32 = 0x0005_0036;

/// OpFunctionEnd.
const END: u32 = 0x0001_0038;

/// OpFunctionCall without arguments.
const CALL: u32 = 0x0004_0039;

const LABEL: u32 = 0x0002_00f8;

const BRANCH: u32 = 0x0002_00f9;

const RETURN: u32 = 0x0001_00fd;

const NO_LINE: u32 = 0x0001_013d;

// Ids.
const MAIN: u32 = 1;

const VOID: u32 = 3;

/// A function without parameters and value.
const ACTION: u32 = 4;

const FILE: u32 = 5;

/// The bound that the modules give.
const BOUND: u32 = 60;

const HEADER: [u32; 5] = [0x0723_0203, 0x0001_0600, 0, BOUND, 0];

/// What stands before the names.
const FRONT: [u32; 16] = [
    // OpCapability Shader; OpMemoryModel Logical GLSL450
    0x0002_0011,
    1,
    0x0003_000e,
    0,
    1,
    // OpEntryPoint GLCompute %1 "main"; OpExecutionMode %1 LocalSize 1 1 1
    0x0005_000f,
    5,
    MAIN,
    0x6e69_616d,
    0,
    0x0006_0010,
    MAIN,
    17,
    1,
    1,
    1,
];

/// OpTypeVoid and OpTypeFunction.
const TYPES: [u32; 5] = [0x0002_0013, VOID, 0x0003_0021, ACTION, VOID];

/// Names and functions.
type Parts = (&'static [u32], &'static [u32]);

/// The parts of a module, those of its normal form, and the bound there.
type Case = (Parts, Parts, u32);

const CASES: [Case; 5] = [
    // a module in normal form: the bound alone changes
    (
        (
            &[],
            &[FUNCTION, VOID, MAIN, 0, ACTION, LABEL, 20, RETURN, END],
        ),
        (
            &[],
            &[FUNCTION, VOID, MAIN, 0, ACTION, LABEL, 20, RETURN, END],
        ),
        21,
    ),
    // the block of %50 is joined, and its name goes; that of %20 and of the function stay
    (
        (
            &[NAME, 50, 0x61, NAME, MAIN, 0x62, NAME, 20, 0x63],
            &[
                FUNCTION, VOID, MAIN, 0, ACTION, LABEL, 20, BRANCH, 50, LABEL, 50, RETURN, END,
            ],
        ),
        (
            &[NAME, MAIN, 0x62, NAME, 20, 0x63],
            &[FUNCTION, VOID, MAIN, 0, ACTION, LABEL, 20, RETURN, END],
        ),
        21,
    ),
    // OpString and OpSource, with a file and without one, stay; line marks go, in functions and before them
    (
        (
            &[
                STRING,
                FILE,
                0x0063_2e61,
                SOURCE_OF_FILE,
                2,
                450,
                FILE,
                SOURCE,
                2,
                450,
                NO_LINE,
            ],
            &[
                LINE, FILE, 7, 1, FUNCTION, VOID, MAIN, 0, ACTION, LABEL, 20, LINE, FILE, 8, 1,
                RETURN, END,
            ],
        ),
        (
            &[
                STRING,
                FILE,
                0x0063_2e61,
                SOURCE_OF_FILE,
                2,
                450,
                FILE,
                SOURCE,
                2,
                450,
            ],
            &[FUNCTION, VOID, MAIN, 0, ACTION, LABEL, 20, RETURN, END],
        ),
        21,
    ),
    // two functions, each with a block that is joined, in their order
    (
        (
            &[NAME, 31, 0x61, NAME, 50, 0x62, NAME, 59, 0x63],
            &[
                FUNCTION, VOID, MAIN, 0, ACTION, LABEL, 20, BRANCH, 50, LABEL, 50, CALL, VOID, 41,
                30, RETURN, END, FUNCTION, VOID, 30, 0, ACTION, LABEL, 31, BRANCH, 59, LABEL, 59,
                RETURN, END,
            ],
        ),
        (
            &[NAME, 31, 0x61],
            &[
                FUNCTION, VOID, MAIN, 0, ACTION, LABEL, 20, CALL, VOID, 41, 30, RETURN, END,
                FUNCTION, VOID, 30, 0, ACTION, LABEL, 31, RETURN, END,
            ],
        ),
        42,
    ),
    // the second function calls the first
    (
        (
            &[NAME, 22, 0x61],
            &[
                FUNCTION, VOID, 30, 0, ACTION, LABEL, 22, RETURN, END, FUNCTION, VOID, MAIN, 0,
                ACTION, LABEL, 20, CALL, VOID, 41, 30, RETURN, END,
            ],
        ),
        (
            &[NAME, 22, 0x61],
            &[
                FUNCTION, VOID, 30, 0, ACTION, LABEL, 22, RETURN, END, FUNCTION, VOID, MAIN, 0,
                ACTION, LABEL, 20, CALL, VOID, 41, 30, RETURN, END,
            ],
        ),
        42,
    ),
];

/// Whether a module breaks no rule on declarations.
fn is_declared(alloc: Global, flat: &Flat) -> Result<bool, NoMemory>
    requires { Rises flat.now.insts }
    ensures { IfOk result (λ is. is ≡ true → first (group_3 flat.now.insts) ≡ None) }
{
    match tables(alloc, flat) {
        Ok(_) => Ok(true),
        Err(Fault::NoMemory) => Err(NoMemory),
        Err(_) => Ok(false),
    }
}

/// The words of a module of these parts, behind the header.
fn words_in(alloc: Global, parts: Parts) -> Result<Vec<u32>, NoMemory> {
    let mut words = Vec::new(alloc);
    words.extend_from_slice(&FRONT)?;
    words.extend_from_slice(parts.0)?;
    words.extend_from_slice(&TYPES)?;
    words.extend_from_slice(parts.1)?;
    Ok(words)
}

/// A module of these words. None where it breaks a rule on layout or on declarations.
fn module(alloc: Global, rest: &[u32]) -> Result<Option<Flat>, NoMemory>
    ensures { IfOk result (λ flat. IfSome flat (λ code. IsDeclared code.insts)) }
{
    let mut words = Vec::new(alloc);
    words.extend_from_slice(&HEADER)?;
    words.extend_from_slice(rest)?;
    if words.len() > 1000 {
        return Ok(None);
    }
    let Ok(flat) = decode(alloc, &words) else {
        return Ok(None);
    };
    if is_declared(alloc, &flat)? {
        Ok(Some(flat))
    } else {
        Ok(None)
    }
}

/// Adds a tree.
fn push_tree(bodies: &mut Vec<Body>, body: Body) -> Result<(), NoMemory>
    ensures { OnOk result (bodies.new.items ≡ bodies.old.items ++ body ∷ []) }
{
    bodies.push(body)?;
    Ok(())
}

/// The trees of the functions of a module.
fn trees(alloc: Global, flat: &Flat) -> Result<Vec<Body>, Fault>
    requires { IsDeclared flat.now.insts }
    ensures { IfOk result (λ bodies. AreTrees flat.now.insts bodies.items) }
{
    let mut bodies = Vec::new(alloc);
    'functions: for f in 0..flat.functions() {
        push_tree(&mut bodies, parse(alloc, flat, f)?)?;
    }
    Ok(bodies)
}

/// The words of instructions.
fn words_of(alloc: Global, insts: &InstList) -> Result<Vec<u32>, NoMemory> {
    let mut words = Vec::new(alloc);
    'instructions: for k in 0..insts.count() {
        words.extend_from_slice(insts.at(k).words)?;
    }
    Ok(words)
}

/// The bound of the normal form of a module, and its words behind the header. None where a rule is broken.
fn normal_form(alloc: Global, parts: Parts) -> Result<Option<(u32, Vec<u32>)>, NoMemory> {
    let Some(flat) = module(alloc, &words_in(alloc, parts)?)? else {
        return Ok(None);
    };
    let Ok(bodies) = trees(alloc, &flat) else {
        return Ok(None);
    };
    let normal = norm(alloc, &flat, &bodies)?;
    Ok(Some((normal.header().bound, words_of(alloc, normal.insts())?)))
}

/// Whether words are those of a module of these parts, behind the header.
fn are_words_of(alloc: Global, words: &[u32], parts: Parts) -> Result<bool, NoMemory> {
    let wanted = words_in(alloc, parts)?;
    Ok(words == wanted.as_slice())
}

/// Whether the module of a case has the normal form and the bound that it should have.
fn is_normalized(alloc: Global, case: &Case) -> Result<bool, NoMemory> {
    match normal_form(alloc, case.0)? {
        Some((bound, words)) => Ok(bound == case.2 && are_words_of(alloc, &words, case.1)?),
        None => Ok(false),
    }
}

#[test]
fn modules_are_normalized(rt: HostRuntime) -> Result<(), Fail> {
    'cases: for case in CASES.as_slice() {
        let bound = case.2;
        assert!(rt; is_normalized(rt.alloc(), case)?, "the bound is {bound}");
    }
    Ok(())
}

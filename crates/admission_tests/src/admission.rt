use spv_admission::admit;
use spv_base::{Fault, MAGIC, NoMemory, Refusal};
use spv_module::{Flat, encode};
use std::alloc::Global;
use std::test::Fail;

/// A module, whose function has two blocks.
const MODULE: [u32; 44] = [
    // the header; OpCapability Shader; OpMemoryModel Logical GLSL450
    0x0723_0203,
    0x0001_0600,
    0,
    60,
    0,
    0x0002_0011,
    1,
    0x0003_000e,
    0,
    1,
    // OpEntryPoint GLCompute %1 "main"; OpExecutionMode %1 LocalSize 1 1 1
    0x0005_000f,
    5,
    1,
    0x6e69_616d,
    0,
    0x0006_0010,
    1,
    17,
    1,
    1,
    1,
    // OpTypeVoid %3; OpTypeFunction %4 %3; OpTypeBool %5; OpConstantTrue %5 %6
    0x0002_0013,
    3,
    0x0003_0021,
    4,
    3,
    0x0002_0014,
    5,
    0x0003_0029,
    5,
    6,
    // OpFunction %3 %1 None %4; OpLabel %20; OpBranch %21; OpLabel %21; OpReturn; OpFunctionEnd
    0x0005_0036,
    3,
    1,
    0,
    4,
    0x0002_00f8,
    20,
    0x0002_00f9,
    21,
    0x0002_00f8,
    21,
    0x0001_00fd,
    0x0001_0038,
];

/// The bound of its normal form, and the words of the function there, in which the blocks are joined.
const BOUND: u32 = 21;

const JOINED: [u32; 9] = [
    0x0005_0036,
    3,
    1,
    0,
    4,
    0x0002_00f8,
    20,
    0x0001_00fd,
    0x0001_0038,
];

/// Where the function begins.
const FUNCTION: usize = 31;

const NO_LINE: u32 = 0x0001_013d;

const FUNCTION_END: u32 = 0x0001_0038;

/// What is told of words.
#[derive(Clone, Copy, Debug, PartialEq, Eq)]
pub(crate) enum Told {
    Admitted,
    Refused(u16, u32),
    Nesting,
}

/// Words of the module that are changed, each with its place; and what is told then.
type Case = (&'static [(usize, u32)], Told);

const CASES: [Case; 10] = [
    (&[], Told::Admitted),
    // version 1.5
    (&[(1, 0x0001_0500)], Told::Refused(101, 1)),
    // a second OpFunctionEnd
    (&[(42, FUNCTION_END)], Told::Refused(205, 43)),
    // %5 twice
    (&[(30, 5)], Told::Refused(301, 28)),
    // a block without a terminator
    (&[(42, NO_LINE)], Told::Refused(401, 43)),
    // a function of another result type than its type says
    (&[(32, 5)], Told::Refused(502, 31)),
    // a size of 0
    (&[(18, 0)], Told::Refused(605, 10)),
    // of two groups the lower, also where its place comes later
    (&[(18, 0), (32, 5)], Told::Refused(502, 31)),
    (&[(18, 0), (32, 5), (42, NO_LINE)], Told::Refused(401, 43)),
    (&[(42, NO_LINE), (30, 5)], Told::Refused(301, 28)),
];

/// The words of the module with these changed.
fn changed(alloc: Global, changes: &[(usize, u32)]) -> Result<Vec<u32>, NoMemory> {
    let mut words = Vec::new(alloc);
    words.extend_from_slice(&MODULE)?;
    'changes: for (place, word) in changes {
        if let Some(changing) = words.get_mut(*place) {
            *changing = *word;
        }
    }
    Ok(words)
}

/// The module in its normal form. None where these words are too many, or have no header.
fn admitted(alloc: Global, words: &[u32]) -> Option<Result<Flat, Fault>> {
    if words.len() < 5 || words.len() > 1000 || words[0] != MAGIC {
        return None;
    }
    Some(admit(alloc, words))
}

/// What is told of words; None where they are too many, or have no header.
pub(crate) fn answer_to(alloc: Global, words: &[u32]) -> Result<Option<Told>, NoMemory> {
    match admitted(alloc, words) {
        Some(Ok(_)) => Ok(Some(Told::Admitted)),
        Some(Err(Fault::Refused(Refusal { rule, at }))) => Ok(Some(Told::Refused(rule, at))),
        Some(Err(Fault::Nesting)) => Ok(Some(Told::Nesting)),
        Some(Err(Fault::NoMemory)) => Err(NoMemory),
        None => Ok(None),
    }
}

/// Whether of the module with the changes of a case that is told which should be.
fn is_told(alloc: Global, case: &Case) -> Result<bool, NoMemory> {
    let words = changed(alloc, case.0)?;
    Ok(answer_to(alloc, &words)? == Some(case.1))
}

#[test]
fn the_lowest_group_is_told(rt: HostRuntime) -> Result<(), Fail> {
    'cases: for case in CASES.as_slice() {
        let wanted = case.1;
        assert!(rt; is_told(rt.alloc(), case)?, "{wanted:?}");
    }
    Ok(())
}

/// The words of the normal form.
fn normal_words(alloc: Global) -> Result<Vec<u32>, NoMemory> {
    let mut words = Vec::new(alloc);
    words.extend_from_slice(&MODULE[..FUNCTION])?;
    words.extend_from_slice(&JOINED)?;
    words[3] = BOUND;
    Ok(words)
}

/// Whether a module is written so.
fn is_written(alloc: Global, flat: &Flat, wanted: &[u32]) -> Result<bool, NoMemory> {
    let words = encode(alloc, flat)?;
    Ok(words.as_slice() == wanted)
}

/// Whether the module is given in this form.
fn is_given(alloc: Global, wanted: &[u32]) -> Result<bool, NoMemory> {
    match admitted(alloc, &MODULE) {
        Some(Ok(flat)) => is_written(alloc, &flat, wanted),
        _ => Ok(false),
    }
}

#[test]
fn a_module_is_given_in_normal_form(rt: HostRuntime) -> Result<(), Fail> {
    let wanted = normal_words(rt.alloc())?;
    assert!(rt; is_given(rt.alloc(), &wanted)?);
    Ok(())
}

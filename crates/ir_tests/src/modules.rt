use spv_base::{Fault, MAGIC, NoMemory};
use spv_ir::{Kept, Module, Silent, Watcher, admit, copy, write};
use std::alloc::Global;
use std::test::Fail;

/// A module, whose function has two blocks.
const MODULE: [u32; 44] = [
    // the header; OpCapability Shader; OpMemoryModel Logical GLSL450
    0x0723_0203,
    0x0001_0600,
    0,
    60,
    0,
    0x0002_0011,
    1,
    0x0003_000e,
    0,
    1,
    // OpEntryPoint GLCompute %1 "main"; OpExecutionMode %1 LocalSize 1 1 1
    0x0005_000f,
    5,
    1,
    0x6e69_616d,
    0,
    0x0006_0010,
    1,
    17,
    1,
    1,
    1,
    // OpTypeVoid %3; OpTypeFunction %4 %3; OpTypeBool %5; OpConstantTrue %5 %6
    0x0002_0013,
    3,
    0x0003_0021,
    4,
    3,
    0x0002_0014,
    5,
    0x0003_0029,
    5,
    6,
    // OpFunction %3 %1 None %4; OpLabel %20; OpBranch %21; OpLabel %21; OpReturn; OpFunctionEnd
    0x0005_0036,
    3,
    1,
    0,
    4,
    0x0002_00f8,
    20,
    0x0002_00f9,
    21,
    0x0002_00f8,
    21,
    0x0001_00fd,
    0x0001_0038,
];

/// The bound of its normal form, and the words of the function there, in which the blocks are joined.
const BOUND: u32 = 21;

const JOINED: [u32; 9] = [
    0x0005_0036,
    3,
    1,
    0,
    4,
    0x0002_00f8,
    20,
    0x0001_00fd,
    0x0001_0038,
];

/// Where the function begins.
const FUNCTION: usize = 31;

/// The module in its normal form. None where these words are too many, or have no header.
fn admitted(alloc: Global, words: &[u32]) -> Option<Result<Module, Fault>> {
    if words.len() < 5 || words.len() > 1000 || words[0] != MAGIC {
        return None;
    }
    Some(admit(alloc, words))
}

/// The words of the normal form.
fn expected(alloc: Global) -> Result<Vec<u32>, NoMemory> {
    let mut words = Vec::new(alloc);
    words.extend_from_slice(&MODULE[..FUNCTION])?;
    words.extend_from_slice(&JOINED)?;
    words[3] = BOUND;
    Ok(words)
}

/// Whether a module is written as these words.
fn is_written(alloc: Global, module: &Module, words: &[u32]) -> Result<bool, NoMemory> {
    Ok(write(alloc, module)?.as_slice() == words)
}

#[test]
fn modules_are_written_copied_and_shown(rt: HostRuntime) -> Result<(), Fail> {
    let alloc = rt.alloc();
    let Some(Ok(module)) = admitted(alloc, &MODULE) else {
        assert!(rt; false);
        return Ok(());
    };
    let words = expected(alloc)?;
    assert!(rt; is_written(alloc, &module, words.as_slice())?);
    let mut kept = Kept::new(alloc);
    assert!(rt; kept.module(0).is_none());
    kept.shown(0, &module)?;
    let copied = copy(alloc, &module)?;
    kept.shown(7, &copied)?;
    Silent.shown(7, &copied)?;
    assert_eq!(rt; kept.count(), 2);
    assert!(rt; kept.module(2).is_none());
    let Some(last) = kept.module(1) else {
        assert!(rt; false);
        return Ok(());
    };
    assert!(rt; is_written(alloc, last, words.as_slice())?);
    Ok(())
}

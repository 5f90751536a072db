ghost use Rattle.std.specs.Prelude.{◌≡◌};

use crate::modules::module;
use spv_blocks::{Edges, Function, Labels};
use spv_entering::{enterers, tops};
use spv_exits::{add_nested, first_crowded, nested_returns};
use spv_module::NoMemory;
use spv_walking::walk;
use std::alloc::Global;
use std::test::Fail;
use test_texts::{Table, Tells, Unread, first_wrong};

/// A function with returns inside and outside of constructs, and a switch that names one block twice. What stands behind it
/// is the number of a case.
const FRAME: &str = "
; the header; OpCapability Shader; OpMemoryModel Logical GLSL450
0x07230203 0x00010600 0 20 0 0x00020011 1 0x0003000e 0 1
; OpEntryPoint GLCompute %1 main; OpExecutionMode %1 LocalSize 1 1 1
0x0005000f 5 1 0x6e69616d 0 0x00060010 1 17 1 1 1
; %3 = OpTypeVoid; %4 = OpTypeFunction %3; %5 = OpTypeInt 32 0; %6 = OpConstant %5 7
0x00020013 3 0x00030021 4 3 0x00040015 5 32 0 0x0004002b 5 6 7
; %14 = OpTypeBool; %15 = OpConstantTrue %14
0x00020014 14 0x00030029 14 15
; %1 = OpFunction %3 None %4
0x00050036 3 1 0 4
; at 44: %7 = OpLabel; OpSelectionMerge %10 None; OpSwitch %6 %8 1 %9 2 %8 3 %11
0x000200f8 7 0x000300f7 10 0 0x000900fb 6 8 1 9 2 8 3 11
; at 58: %8 = OpLabel; OpReturn
0x000200f8 8 0x000100fd
; at 61: %9 = OpLabel; OpSelectionMerge %12 None; OpBranchConditional %15 %13 %12
0x000200f8 9 0x000300f7 12 0 0x000400fa 15 13 12
; at 70: %13 = OpLabel; OpBranch %12
0x000200f8 13 0x000200f9 12
; at 74: %12 = OpLabel; OpBranch %10
0x000200f8 12 0x000200f9 10
; at 78: %11 = OpLabel; OpUnreachable
0x000200f8 11 0x000100ff
; at 81: %10 = OpLabel; OpReturn; OpFunctionEnd
0x000200f8 10 0x000100fd 0x00010038
|
";

/// A number of nested returns, the greatest standing for the greatest of all. How many the function has: that of %8, since
/// %10 stands outside, and OpUnreachable is none. Then 0, or 607 and the place of the first block that has too many exits
/// with so many: two blocks branch to %12, none to %7, one to each of the others.
const CASES: &str = "
0 = 1 0
16381 = 1 0
16382 = 1 607 74
16383 = 1 607 58
16384 = 1 607 44
0xffffffff = 1 607 44
";

/// How many nested returns a function has.
fn nested(alloc: Global, labels: &Labels, function: &Function) -> Result<usize, NoMemory>
    requires { labels.now ≡ function.now }
{
    let edges = Edges::of(alloc, labels)?;
    let tops = tops(alloc, labels, &edges)?;
    let enterers = enterers(alloc, labels, &edges, &tops)?;
    let walked = walk(alloc, labels, &enterers)?;
    Ok(nested_returns(function, &walked))
}

/// The nested returns, and the first block that breaks the rule with so many of them.
fn counted(
    alloc: Global,
    labels: &Labels,
    function: &Function,
    returns: usize,
) -> Result<Vec<u32>, NoMemory>
    requires { labels.now ≡ function.now }
{
    let mut told = Vec::new(alloc);
    told.push(nested(alloc, labels, function)?.min(1000) as u32)?;
    match first_crowded(alloc, function, labels, returns)? {
        Some(refusal) => {
            told.push(u32::from(refusal.rule))?;
            told.push(refusal.at)?;
        }
        None => told.push(0)?,
    }
    Ok(told)
}

/// The same of the first function of a module, in front of the number; no answer where there is no module.
fn told(alloc: Global, words: &[u32]) -> Result<Vec<u32>, NoMemory> {
    let [words @ .., returns] = words else {
        return Ok(Vec::new(alloc));
    };
    let Some(flat) = module(alloc, words) else {
        return Ok(Vec::new(alloc));
    };
    let returns = if *returns == u32::MAX {
        usize::MAX
    } else {
        *returns as usize
    };
    let function = Function::of(alloc, &flat, 0)?;
    let labels = Labels::of(alloc, &function)?;
    counted(alloc, &labels, &function, returns)
}

/// The rule on exits.
struct Exits;

impl Tells for Exits {
    fn tell(&self, alloc: Global, words: &[u32]) -> Result<Vec<u32>, Unread> {
        match told(alloc, words) {
            Ok(told) => Ok(told),
            Err(_) => Err(Unread::NoMemory),
        }
    }
}

#[test]
fn returns_and_branches_are_counted(rt: HostRuntime) -> Result<(), Fail> {
    let table = Table {
        names: "",
        frame: FRAME,
        cases: CASES,
    };
    let wrong = first_wrong(rt.alloc(), &Exits, &table)?;
    assert!(rt; wrong.is_none(), "{wrong:?}");
    assert!(rt; add_nested(16_380, 3) == 16_383 && add_nested(16_380, usize::MAX) == 16_384);
    Ok(())
}

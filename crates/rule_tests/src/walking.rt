use crate::modules::module;
use spv_blocks::{Edges, Function, Labels};
use spv_entering::{enterers, tops};
use spv_module::NoMemory;
use spv_walking::{Level, Walked, walk};
use std::alloc::Global;
use std::test::Fail;
use test_texts::{Table, Tells, Unread, first_wrong};

/// What may be asked of a label (from which block it is entered; the place of its context; the innermost construct round
/// it), and the parts of a loop.
const NAMES: &str = "
entered = 1
place = 2
inside = 3
body = 3
next = 4
";

/// A function with one loop. What stands behind it is what a case asks.
const FRAME: &str = "
; the header; OpCapability Shader; OpMemoryModel Logical GLSL450
0x07230203 0x00010600 0 20 0 0x00020011 1 0x0003000e 0 1
; OpEntryPoint GLCompute %1 main; OpExecutionMode %1 LocalSize 1 1 1
0x0005000f 5 1 0x6e69616d 0 0x00060010 1 17 1 1 1
; %3 = OpTypeVoid; %4 = OpTypeFunction %3; %5 = OpTypeBool; %6 = OpConstantTrue %5
0x00020013 3 0x00030021 4 3 0x00020014 5 0x00030029 5 6
; %1 = OpFunction %3 None %4
0x00050036 3 1 0 4
; %7 = OpLabel; OpBranch %8
0x000200f8 7 0x000200f9 8
; %8 = OpLabel; OpLoopMerge %11 %10 None; OpBranchConditional %6 %9 %11
0x000200f8 8 0x000400f6 11 10 0 0x000400fa 6 9 11
; %9 = OpLabel; OpBranch %10; %10 = OpLabel; OpBranch %8
0x000200f8 9 0x000200f9 10 0x000200f8 10 0x000200f9 8
; %11 = OpLabel; OpReturn; %12 = OpLabel, left out; OpReturn; OpFunctionEnd
0x000200f8 11 0x000100fd 0x000200f8 12 0x000100fd 0x00010038
|
";

/// What is asked of a label, and the answer, which is empty where there is none.
const CASES: &str = "
entered 8 = 7 ; the header
entered 9 = 8 ; the body, from the header
entered 10 = ; the continue target, which the merge instruction names, from no block
; outside all constructs
place 7 = 0
place 8 = 0
place 11 = 0
inside 11 =
place 12 = ; it is not walked
; in the loop
inside 9 = body 8 11 10
inside 10 = next 8 11
";

/// Adds a construct, with its kind in front.
fn add_level(told: &mut Vec<u32>, level: Level) -> Result<(), NoMemory> {
    match level {
        Level::Selection(merge) => told.extend_from_slice(&[1, merge])?,
        Level::Arm(header, merge, target) => told.extend_from_slice(&[2, header, merge, target])?,
        Level::Body(header, merge, next) => told.extend_from_slice(&[3, header, merge, next])?,
        Level::Next(header, merge) => told.extend_from_slice(&[4, header, merge])?,
    }
    Ok(())
}

/// Adds the place of a block, or the innermost construct round it.
fn add_walked(
    told: &mut Vec<u32>,
    walked: &Walked,
    asked: u32,
    label: u32,
) -> Result<(), NoMemory> {
    let Some(place) = walked.place(label) else {
        return Ok(());
    };
    if asked == 2 {
        told.push(place.min(1000) as u32)?;
    } else if let Some(level) = walked.rows().level(place) {
        add_level(told, level)?;
    }
    Ok(())
}

/// What is told of a label of a function.
fn asked_of(alloc: Global, labels: &Labels, asked: u32, label: u32) -> Result<Vec<u32>, NoMemory> {
    let edges = Edges::of(alloc, labels)?;
    let tops = tops(alloc, labels, &edges)?;
    let enterers = enterers(alloc, labels, &edges, &tops)?;
    let mut told = Vec::new(alloc);
    if asked == 1 {
        if let Some(from) = enterers.get(label) {
            told.push(from)?;
        }
    } else {
        let walked = walk(alloc, labels, &enterers)?;
        add_walked(&mut told, &walked, asked, label)?;
    }
    Ok(told)
}

/// What is told of a label of the first function of a module; a word that no case wants where there is none.
fn told(alloc: Global, words: &[u32]) -> Result<Vec<u32>, NoMemory> {
    let mut unread = Vec::new(alloc);
    unread.push(u32::MAX)?;
    let [words @ .., asked, label] = words else {
        return Ok(unread);
    };
    let Some(flat) = module(alloc, words) else {
        return Ok(unread);
    };
    let function = Function::of(alloc, &flat, 0)?;
    let labels = Labels::of(alloc, &function)?;
    asked_of(alloc, &labels, *asked, *label)
}

/// The walk through a function.
struct Walking;

impl Tells for Walking {
    fn tell(&self, alloc: Global, words: &[u32]) -> Result<Vec<u32>, Unread> {
        match told(alloc, words) {
            Ok(told) => Ok(told),
            Err(_) => Err(Unread::NoMemory),
        }
    }
}

#[test]
fn a_loop_is_walked(rt: HostRuntime) -> Result<(), Fail> {
    let table = Table {
        names: NAMES,
        frame: FRAME,
        cases: CASES,
    };
    let wrong = first_wrong(rt.alloc(), &Walking, &table)?;
    assert!(rt; wrong.is_none(), "{wrong:?}");
    Ok(())
}

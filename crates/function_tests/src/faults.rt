use crate::modules::module;
use spv_base::Refusal;
use spv_blocks::{Construct, End, Function, Labels};
use spv_faults::{earlier, end_fault, loop_fault, merge_fault, open_fault, same_literal};
use spv_module::Flat;
use std::alloc::Global;
use std::test::Fail;
use test_texts::{Unread, numbers};

/// A function that switches over a constant, with a line mark between the merge instruction and the terminator.
const SWITCHING: &str = "
; the header; OpCapability Shader; OpMemoryModel Logical GLSL450
0x07230203 0x00010600 0 20 0 0x00020011 1 0x0003000e 0 1
; OpEntryPoint GLCompute %1 main; OpExecutionMode %1 LocalSize 1 1 1
0x0005000f 5 1 0x6e69616d 0 0x00060010 1 17 1 1 1
; %3 = OpTypeVoid; %4 = OpTypeFunction %3; %5 = OpTypeInt 32 0; %6 = OpConstant %5 7
0x00020013 3 0x00030021 4 3 0x00040015 5 32 0 0x0004002b 5 6 7
; %1 = OpFunction %3 None %4
0x00050036 3 1 0 4
; %7 = OpLabel; OpSelectionMerge %10 None; OpNoLine; OpSwitch %6 %8 1 %9 2 %8
0x000200f8 7 0x000300f7 10 0 0x0001013d 0x000700fb 6 8 1 9 2 8
; %8 = OpLabel; OpBranch %10; %9 = OpLabel; OpBranch %10
0x000200f8 8 0x000200f9 10 0x000200f8 9 0x000200f9 10
; %10 = OpLabel; %11 = OpPhi %5 %6 %8 %6 %9; OpReturn; OpFunctionEnd
0x000200f8 10 0x000700f5 5 11 6 8 6 9 0x000100fd 0x00010038
";

/// The module of the words after one of them was changed.
fn changed(alloc: Global, place: usize, word: u32) -> Result<Option<Flat>, Unread> {
    let mut words = numbers(alloc, SWITCHING)?;
    if let Some(old) = words.get_mut(place) {
        *old = word;
    }
    Ok(module(alloc, words.as_slice()))
}

/// Whether the switch of %7 is refused, which has its own block for its merge block, and nothing else.
fn is_merge_fault(alloc: Global, function: &Function) -> Result<bool, Fail> {
    let labels = Labels::of(alloc, function)?;
    match labels.block(7) {
        Some(block) => Ok(
            merge_fault(&labels, 7, block) == Some(Refusal { rule: 403, at: 41 })
                && loop_fault(false, block) == None
                && open_fault(function) == None,
        ),
        None => Ok(false),
    }
}

/// The same of the first function of a module.
fn has_merge_fault(alloc: Global, flat: &Flat) -> Result<bool, Fail> {
    let function = Function::of(alloc, flat, 0)?;
    is_merge_fault(alloc, &function)
}

/// Whether in the first function of a module the block is refused that ends without a terminator.
fn has_open_fault(alloc: Global, flat: &Flat) -> Result<bool, Fail> {
    let function = Function::of(alloc, flat, 0)?;
    Ok(open_fault(&function) == Some(Refusal { rule: 401, at: 54 }))
}

#[test]
fn blocks_are_looked_at(rt: HostRuntime) -> Result<(), Fail> {
    // the switch of %7 with %7 as its own merge block
    let flat = changed(rt.alloc(), 42, 7)?;
    assert!(rt; flat.is_some());
    if let Some(flat) = &flat {
        assert!(rt; has_merge_fault(rt.alloc(), flat)?);
    }
    Ok(())
}

#[test]
fn an_open_block_is_looked_at(rt: HostRuntime) -> Result<(), Fail> {
    // %10 = OpLabel in the place of the first OpBranch %10
    let flat = changed(rt.alloc(), 54, 0x0002_00f8)?;
    assert!(rt; flat.is_some());
    if let Some(flat) = &flat {
        assert!(rt; has_open_fault(rt.alloc(), flat)?);
    }
    Ok(())
}

/// Whether of a terminator at 45 this rule is broken.
fn breaks(
    alloc: Global,
    construct: Option<Construct>,
    is_loop: bool,
    is_next: bool,
    end: &End,
    rule: Option<u16>,
) -> Result<bool, Fail> {
    let wanted = rule.map(|rule| Refusal { rule, at: 45 });
    Ok(end_fault(alloc, construct, is_loop, is_next, end, 45)? == wanted)
}

#[test]
fn terminators_are_looked_at(rt: HostRuntime) -> Result<(), Fail> {
    let header = Some(Construct::Loop(8, 9));
    assert!(rt;
        breaks(
            rt.alloc(),
            None,
            false,
            false,
            &End::BranchIf(8, 9),
            Some(407)
        )?
    );
    assert!(rt;
        breaks(
            rt.alloc(),
            header,
            true,
            false,
            &End::BranchIf(9, 7),
            Some(410)
        )?
    );
    assert!(rt; breaks(rt.alloc(), header, true, false, &End::BranchIf(9, 8), None)?);
    assert!(rt; breaks(rt.alloc(), None, false, true, &End::Return, Some(405))?);
    Ok(())
}

/// Whether of two refusals at one place the one by the lesser rule is the earlier.
fn is_earlier(greater: u16, lesser: u16) -> bool {
    let one = Some(Refusal {
        rule: greater,
        at: 45,
    });
    let other = Some(Refusal {
        rule: lesser,
        at: 45,
    });
    earlier(one, other) == other
}

#[test]
fn literals_and_refusals_are_compared(rt: HostRuntime) -> Result<(), Fail> {
    assert!(rt; same_literal(rt.alloc(), &[(1, 8), (2, 9), (1, 9)])?);
    assert!(rt; !same_literal(rt.alloc(), &[(1, 8), (2, 8)])?);
    assert!(rt; is_earlier(405, 403));
    Ok(())
}

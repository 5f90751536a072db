use crate::modules::module;
use spv_base::MAGIC;
use spv_blocks::{Construct, Edges, End, Function, Labels};
use spv_module::Flat;
use std::alloc::Global;
use std::test::Fail;
use test_texts::{Unread, numbers};

/// A function that switches over a constant, with a line mark between the merge instruction and the terminator.
const SWITCHING: &str = "
; the header; OpCapability Shader; OpMemoryModel Logical GLSL450
0x07230203 0x00010600 0 20 0 0x00020011 1 0x0003000e 0 1
; OpEntryPoint GLCompute %1 main; OpExecutionMode %1 LocalSize 1 1 1
0x0005000f 5 1 0x6e69616d 0 0x00060010 1 17 1 1 1
; %3 = OpTypeVoid; %4 = OpTypeFunction %3; %5 = OpTypeInt 32 0; %6 = OpConstant %5 7
0x00020013 3 0x00030021 4 3 0x00040015 5 32 0 0x0004002b 5 6 7
; %1 = OpFunction %3 None %4
0x00050036 3 1 0 4
; %7 = OpLabel; OpSelectionMerge %10 None; OpNoLine; OpSwitch %6 %8 1 %9 2 %8
0x000200f8 7 0x000300f7 10 0 0x0001013d 0x000700fb 6 8 1 9 2 8
; %8 = OpLabel; OpBranch %10; %9 = OpLabel; OpBranch %10
0x000200f8 8 0x000200f9 10 0x000200f8 9 0x000200f9 10
; %10 = OpLabel; %11 = OpPhi %5 %6 %8 %6 %9; OpReturn; OpFunctionEnd
0x000200f8 10 0x000700f5 5 11 6 8 6 9 0x000100fd 0x00010038
";

/// The module of the words after one of them was changed.
fn changed(alloc: Global, place: usize, word: u32) -> Result<Option<Flat>, Unread> {
    let mut words = numbers(alloc, SWITCHING)?;
    if let Some(old) = words.get_mut(place) {
        *old = word;
    }
    Ok(module(alloc, words.as_slice()))
}

/// Whether the four blocks are read.
fn are_read(function: &Function) -> bool {
    function.count() == 4
        && function.label(0) == 7
        && function.label_at(3) == 60
        && function.end_at(0) == 45
        && function.end_at(3) == 69
        && function.block(0).body.len() == 1
        && function.construct(0) == Some(Construct::Switch(10))
        && function.construct(3) == None
        && matches!(function.end(1), End::Branch(10))
}

/// Whether the blocks of the first function of a module are read.
fn first_is_read(alloc: Global, flat: &Flat) -> Result<bool, Fail> {
    let function = Function::of(alloc, flat, 0)?;
    Ok(are_read(&function))
}

/// Whether a module has no second function.
fn has_one(alloc: Global, flat: &Flat) -> Result<bool, Fail> {
    let function = Function::of(alloc, flat, 1)?;
    Ok(function.count() == 0)
}

#[test]
fn blocks_are_read(rt: HostRuntime) -> Result<(), Fail> {
    let flat = changed(rt.alloc(), 0, MAGIC)?;
    assert!(rt; flat.is_some());
    if let Some(flat) = &flat {
        assert!(rt; first_is_read(rt.alloc(), flat)?);
        assert!(rt; has_one(rt.alloc(), flat)?);
    }
    Ok(())
}

/// Whether the second of five blocks is open, up to the label of the third.
fn is_open(function: &Function) -> bool {
    function.count() == 5
        && matches!(function.end(1), End::Open)
        && function.end_at(1) == 54
        && function.label(2) == 10
        && function.end_at(2) == 56
}

/// The same of the first function of a module.
fn first_is_open(alloc: Global, flat: &Flat) -> Result<bool, Fail> {
    let function = Function::of(alloc, flat, 0)?;
    Ok(is_open(&function))
}

#[test]
fn a_label_leaves_a_block_open(rt: HostRuntime) -> Result<(), Fail> {
    // %10 = OpLabel in the place of the first OpBranch %10
    let flat = changed(rt.alloc(), 54, 0x0002_00f8)?;
    assert!(rt; flat.is_some());
    if let Some(flat) = &flat {
        assert!(rt; first_is_open(rt.alloc(), flat)?);
    }
    Ok(())
}

/// Whether the labels are found, and what is said of them.
fn are_found(labels: &Labels) -> bool {
    labels.place(9) == Some(2)
        && labels.place(11) == None
        && labels.named(10) == 1
        && labels.is_first(7)
        && labels.is_role(7, 10)
        && !labels.is_role(10, 10)
        && labels.is_free(8)
        && !labels.is_free(10)
        && !labels.stops(7)
}

/// Whether the blocks to which the first one leads are told.
fn has_row(alloc: Global, labels: &Labels) -> Result<bool, Fail> {
    if labels.count() == 0 {
        return Ok(false);
    }
    Ok(labels.row(alloc, 0)?.as_slice() == [1, 2, 1].as_slice())
}

/// Whether the edges from the first block and to the last one are told.
fn has_edges(alloc: Global, labels: &Labels) -> Result<bool, Fail> {
    let edges = Edges::of(alloc, labels)?;
    Ok(edges.targets.row(0) == [1, 2].as_slice() && edges.predecessors.row(3) == [1, 2].as_slice())
}

/// Whether all this is told of the first function of a module.
fn first_is_told(alloc: Global, flat: &Flat) -> Result<bool, Fail> {
    let function = Function::of(alloc, flat, 0)?;
    let labels = Labels::of(alloc, &function)?;
    Ok(are_found(&labels) && has_row(alloc, &labels)? && has_edges(alloc, &labels)?)
}

#[test]
fn labels_are_found(rt: HostRuntime) -> Result<(), Fail> {
    let flat = changed(rt.alloc(), 0, MAGIC)?;
    assert!(rt; flat.is_some());
    if let Some(flat) = &flat {
        assert!(rt; first_is_told(rt.alloc(), flat)?);
    }
    Ok(())
}

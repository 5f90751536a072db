use crate::rules::{edits_are_told, first_wrong};
use std::alloc::Global;
use std::test::Fail;

// Cases as in the tests of the other rules. Word 17 is behind the entry point, 23 behind its LocalSize, 131 begins
// OpIMul, 136 OpStore, and 141 is the end. %14 is 0, %15 is 2.

/// Edits that put a switch before the return, so many of whose blocks lead to its merge block, as its own block does.
fn exits(alloc: Global, blocks: u32) -> Result<Vec<u32>, Fail> {
    let count = blocks.saturating_mul(6).saturating_add(9);
    let switch = blocks.saturating_mul(0x020000).saturating_add(0x0300fb);
    let mut edits = Vec::new(alloc);
    edits.extend_from_slice(&[
        3, 1, 1, 0x8000, 139, 1, count, 0x0300f7, 24, 0, switch, 14, 24,
    ])?;
    'targets: for case in 0..blocks {
        edits.extend_from_slice(&[case, case.saturating_add(0x1000)])?;
    }
    'blocks: for case in 0..blocks {
        edits.extend_from_slice(&[0x0200f8, case.saturating_add(0x1000), 0x0200f9, 24])?;
    }
    edits.extend_from_slice(&[0x0200f8, 24, 0x0100fd])?;
    Ok(edits)
}

const CASES: &str = "
132 1 1 13 = 502 131 ; a product that is a pointer
131 1 1 0x0500aa = 502 131 ; a comparison that is an integer
113 1 1 12 = 502 112 ; a pointer into the input that points to a buffer
131 0 4 0x0400e0 14 15 14 = 505 131 ; a barrier whose execution scope is CrossDevice
131 0 4 0x0400e0 15 14 14 = 505 131 ; a barrier whose memory scope is CrossDevice
105 0 4 0x04002b 8 22 0x10a 131 0 4 0x0400e0 15 15 22 = 505 135 ; a barrier with Acquire and AcquireRelease
105 0 4 0x04002b 8 22 0x108 131 0 4 0x0400e0 15 15 22 = 0 0 ; a barrier with AcquireRelease
131 0 7 0x0700ea 8 22 19 14 14 15 = 505 131 ; an atomic sum whose scope is CrossDevice
; an atomic sum with Acquire and SequentiallyConsistent
105 0 4 0x04002b 8 22 18 131 0 7 0x0700ea 8 23 19 15 22 15 = 505 135
131 0 7 0x0700ea 8 22 19 15 14 15 = 0 0 ; an atomic sum
; a value of one arm behind the merge block, where the other arm returns
105 0 5 0x020014 22 0x030029 22 23 136 3 24 0x0300f7 24 0 0x0400fa 23 25 26 0x0200f8 25 0x050080 8 27 14 15 0x0200f9 24 0x0200f8 26 0x0100fd 0x0200f8 24 0x03003e 19 27 = 0 0
; the same, where the other arm leads there too
105 0 5 0x020014 22 0x030029 22 23 136 3 25 0x0300f7 24 0 0x0400fa 23 25 26 0x0200f8 25 0x050080 8 27 14 15 0x0200f9 24 0x0200f8 26 0x0200f9 24 0x0200f8 24 0x03003e 19 27 = 503 163
141 0 13 0x050036 6 22 0 7 0x0200f8 23 0x040039 6 24 22 0x0100fd 0x010038 = 601 141 ; a function that calls itself
; a function that calls one that calls it
141 0 26 0x050036 6 22 0 7 0x0200f8 23 0x040039 6 24 25 0x0100fd 0x010038 0x050036 6 25 0 7 0x0200f8 26 0x040039 6 27 22 0x0100fd 0x010038 = 601 141
; a function that is called twice
131 0 8 0x040039 6 24 22 0x040039 6 25 22 141 0 9 0x050036 6 22 0 7 0x0200f8 23 0x0100fd 0x010038 = 0 0
; a second entry point with the name of the first
17 0 7 0x07000f 5 22 0x6e69616d 0 2 3 23 0 6 0x060010 22 17 1 1 1 141 0 9 0x050036 6 22 0 7 0x0200f8 23 0x0100fd 0x010038 = 604 17
; a second entry point with another name
17 0 7 0x07000f 5 22 0x6e69616e 0 2 3 23 0 6 0x060010 22 17 1 1 1 141 0 9 0x050036 6 22 0 7 0x0200f8 23 0x0100fd 0x010038 = 0 0
";

#[test]
fn results_scopes_calls_and_names_are_looked_at(rt: HostRuntime) -> Result<(), Fail> {
    let wrong = first_wrong(rt.alloc(), CASES)?;
    assert!(rt; wrong.is_none(), "{wrong:?}");
    Ok(())
}

/// Whether the shader with so many blocks that lead to one, and the switch that does, ends so.
fn exits_end(alloc: Global, blocks: u32, rule: u32, at: u32) -> Result<bool, Fail> {
    let edits = exits(alloc, blocks)?;
    edits_are_told(alloc, edits.as_slice(), None, rule, at)
}

#[test]
fn exits_are_looked_at(rt: HostRuntime) -> Result<(), Fail> {
    // A block with 16,383 branches to it, and one with 16,384.
    assert!(rt; exits_end(rt.alloc(), 16_382, 0, 0)?);
    assert!(rt; exits_end(rt.alloc(), 16_383, 607, 98_443)?);
    Ok(())
}

use crate::modules::module;
use spv_module::NoMemory;
use spv_repeats::{repeated_decorations, repeated_types};
use std::alloc::Global;
use std::test::Fail;
use test_texts::{Table, Tells, Unread, first_wrong};

/// The header for ids below 16, OpCapability, OpMemoryModel and OpEntryPoint.
const FRAME: &str = "
0x07230203 0x00010600 0 16 0 0x00020011 1 0x0003000e 0 1 0x0004000f 5 15 0
|
";

/// Whether each instruction behind the head is marked as a type or as a decoration: 1 where it is. No answer where the
/// words are no module.
fn marks_of(alloc: Global, words: &[u32]) -> Result<Vec<u32>, NoMemory> {
    let mut marks = Vec::new(alloc);
    let Some(flat) = module(alloc, words) else {
        return Ok(marks);
    };
    let types = repeated_types(alloc, flat.insts())?;
    let decorations = repeated_decorations(alloc, flat.insts())?;
    for k in 3..flat.count() {
        marks.push(u32::from(types.has(k) || decorations.has(k)))?;
    }
    Ok(marks)
}

/// What stands again.
struct Repeats;

impl Tells for Repeats {
    fn tell(&self, alloc: Global, words: &[u32]) -> Result<Vec<u32>, Unread> {
        match marks_of(alloc, words) {
            Ok(marks) => Ok(marks),
            Err(_) => Err(Unread::NoMemory),
        }
    }
}

/// Instructions behind the head, and which of them stand again.
const CASES: &str = "
0x00040015 1 32 0 0x00040015 2 32 0 = 0 1 ; an int type twice
0x00040015 1 32 0 0x00040015 2 32 1 = 0 0 ; an int type of each signedness
0x00020014 1 0x0003001e 2 1 0x0003001e 3 1 = 0 0 0 ; a struct twice
0x00020013 1 0x00030021 2 1 0x00020014 3 0x00030021 4 1 0x00030021 5 1 = 0 0 0 1 1 ; a function type three times, with a bool type between
0x00050048 1 0 35 0 0x00050048 1 0 35 4 = 0 1 ; an Offset twice on a member
0x00050048 1 0 35 0 0x00050048 1 1 35 4 = 0 0 ; an Offset on each of two members
0x00040047 1 1 7 0x00040047 2 1 7 = 0 1 ; a SpecId on two targets
0x00040047 1 1 7 0x00040047 2 1 8 = 0 0 ; two SpecIds
0x00040047 1 33 0 0x00040047 1 34 0 0x00040047 1 33 1 = 0 0 1 ; a Binding twice on a target, with a DescriptorSet between
0x00040047 1 33 0 0x00040047 2 33 0 = 0 0 ; a Binding on each of two targets
0x00040047 1 11 25 0x00040047 2 11 25 = 0 1 ; two workgroup sizes
0x00040047 1 11 28 0x00040047 2 11 28 = 0 0 ; another built-in on two targets
0x00030047 1 2 0x00030047 1 2 = 0 0 ; Block twice
";

#[test]
fn what_stands_once_is_marked_where_it_stands_again(rt: HostRuntime) -> Result<(), Fail> {
    let table = Table {
        names: "",
        frame: FRAME,
        cases: CASES,
    };
    let wrong = first_wrong(rt.alloc(), &Repeats, &table)?;
    assert!(rt; wrong.is_none(), "{wrong:?}");
    Ok(())
}

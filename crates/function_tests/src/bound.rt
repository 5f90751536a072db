use crate::modules::module;
use spv_bound::bound_of;
use std::alloc::Global;
use std::test::Fail;
use test_texts::{Table, Tells, Unread, first_wrong};

/// The header with the bound 64; OpCapability Shader; OpMemoryModel Logical GLSL450; OpEntryPoint GLCompute %1 main; an
/// OpName of the id that a case gives.
///
/// OpTypeVoid %2; OpTypeFunction %3 %2; OpFunction %2 %1 None %3; OpLabel %4; OpReturn; OpFunctionEnd; OpNoLine.
const FRAME: &str = "
0x07230203 0x00010600 0 64 0 0x00020011 1 0x0003000e 0 1 0x0005000f 5 1 0x6e69616d 0 0x00030005
|
0 0x00020013 2 0x00030021 3 2 0x00050036 2 1 0 3 0x000200f8 4 0x000100fd 0x00010038 0x0001013d
";

/// The id that is named, beside 1 to 4, and the bound of the instructions.
const CASES: &str = "
1 = 5
4 = 5
5 = 6
63 = 64
";

/// The bound of the instructions of a module.
struct Bound;

impl Tells for Bound {
    fn tell(&self, alloc: Global, words: &[u32]) -> Result<Vec<u32>, Unread> {
        let mut told = Vec::new(alloc);
        if let Some(flat) = module(alloc, words) {
            told.push(bound_of(flat.insts()).min(1000) as u32)?;
        }
        Ok(told)
    }
}

#[test]
fn the_bound_is_above_each_id(rt: HostRuntime) -> Result<(), Fail> {
    let table = Table {
        names: "",
        frame: FRAME,
        cases: CASES,
    };
    let wrong = first_wrong(rt.alloc(), &Bound, &table)?;
    assert!(rt; wrong.is_none(), "{wrong:?}");
    Ok(())
}

use crate::tests::{encoded, ends, with_input};
use std::alloc::Global;
use std::test::Fail;
use test_texts::framed;

/// The doubling shader as a front end writes it: with the import of extended instructions, names, a LocalSize and a
/// WorkgroupSize, and a variable of the function. Its OpSource and its names, which are left out here, stand at 29.
const FRONT_END: &str = "
0x07230203 0x00010600 0 34 0 0x00020011 1 0x0006000b 1 0x4c534c47 0x6474732e 0x3035342e 0
0x0003000e 0 1 0x0007000f 5 4 0x6e69616d 0 11 20 0x00060010 4 17 64 1 1
|
0x00040047 11 11 28 0x00040047 17 6 4 0x00030047 18 2 0x00050048 18 0 35 0 0x00040047 20 33 0
0x00040047 20 34 0 0x00040047 33 11 25 0x00020013 2 0x00030021 3 2 0x00040015 6 32 0
0x00040020 7 7 6 0x00040017 9 6 3 0x00040020 10 1 9 0x0004003b 10 11 1 0x0004002b 6 12 0
0x00040020 13 1 6 0x0003001d 17 6 0x0003001e 18 17 0x00040020 19 12 18 0x0004003b 19 20 12
0x00040015 21 32 1 0x0004002b 21 22 0 0x00040020 25 12 6 0x0004002b 6 28 2 0x0004002b 6 31 64
0x0004002b 6 32 1 0x0006002c 9 33 31 32 32 0x00050036 2 4 0 3 0x000200f8 5 0x0004003b 7 8 7
0x00050041 13 14 11 12 0x0004003d 6 15 14 0x0003003e 8 15 0x0004003d 6 23 8 0x0004003d 6 24 8
0x00060041 25 26 20 22 24 0x0004003d 6 27 26 0x00050084 6 29 27 28 0x00060041 25 30 20 22 23
0x0003003e 30 29 0x000100fd 0x00010038
";

/// Its OpSource and its names.
const NAMES: &str = "
0x00030003 2 450 0x00040005 4 0x6e69616d 0 0x00030005 8 105
0x00080005 11 0x475f6c67 0x61626f6c 0x766e496c 0x7461636f 0x496e6f69 68 0x00040005 18 0x61746144 0
0x00040006 18 0 118 0x00030005 20 0
";

/// Whether the shader is written without its names.
fn is_stripped(alloc: Global) -> Result<bool, Fail> {
    let shader = framed(alloc, "", FRONT_END, NAMES)?;
    let shader = encoded(alloc, shader.as_slice(), false)?;
    let expected = framed(alloc, "", FRONT_END, "")?;
    let expected = encoded(alloc, expected.as_slice(), false)?;
    let mut memory = with_input(alloc, 1000, shader.as_slice())?;
    Ok(ends(alloc, &mut memory, 0, "")? && memory.written() == expected.as_slice())
}

#[test]
fn a_shader_as_a_front_end_writes_it_is_stripped(rt: HostRuntime) -> Result<(), Fail> {
    assert!(rt; is_stripped(rt.alloc())?);
    Ok(())
}

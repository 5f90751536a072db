use spv_grammar::enumerants::{
    ext_operands, has_alignment, is_bare_decoration, is_known_builtin, is_known_enumerant,
    is_known_memory_mask, is_numbered_decoration,
};
use spv_grammar::fronts::{front_count, has_result, has_result_type};
use spv_grammar::kind::Role::{DefinedId, Opcode, TypeId, UsedId};
use spv_grammar::kind::{Enumerant, Role};
use spv_grammar::operands::{count_of, opcode_of, push_roles};
use spv_grammar::section;
use spv_grammar::table::row_of;
use spv_grammar::text::{is_set_name, is_text, text_words};
use std::alloc::Global;
use std::test::Fail;
use test_texts::{case, numbers};

/// The words of an instruction, and the part of each, or the rule that it breaks.
const PARTS: &str = "
0x00040015 8 32 0 = Opcode DefinedId Literal Literal ; OpTypeInt %8 32 0
0x0007000f 5 1 0x6e69616d 0 2 3 = Opcode Literal UsedId Octets Octets UsedId UsedId ; OpEntryPoint GLCompute %1 main %2 %3
0x00030003 2 450 = Opcode Literal Literal ; OpSource GLSL 450
0x00040047 2 11 28 = Opcode UsedId Literal Literal ; OpDecorate %2 BuiltIn GlobalInvocationId
0x00040048 4 0 24 = Opcode UsedId Literal Literal ; OpMemberDecorate %4 0 NonWritable
0x0007000c 8 1 2 38 20 15 = Opcode TypeId DefinedId UsedId Literal UsedId UsedId ; %1 = OpExtInst %8 %2 UMin %20 %15
0x00060034 8 21 128 14 15 = Opcode TypeId DefinedId Literal UsedId UsedId ; %21 = OpSpecConstantOp %8 IAdd %14 %15
0x0006003d 8 18 17 2 4 = Opcode TypeId DefinedId UsedId Literal Literal ; %18 = OpLoad %8 %17 Aligned 4
0x000500fb 8 9 5 10 = Opcode UsedId UsedId Literal UsedId ; OpSwitch %8 %9 5 %10
0x0006000b 1 0x4c534c47 0x6474732e 0x3035342e 0 = Opcode DefinedId Octets Octets Octets Octets ; %1 = OpExtInstImport GLSL.std.450
0x00030005 4 0x0000a9c3 = Opcode UsedId Octets ; OpName %4 é
0x0001013d = Opcode ; OpNoLine

; a name without a zero octet, one that is not UTF-8, and one padded with another octet than zero
0x00030005 4 0x6e69616d = Opcode UsedId BadOctets
0x00030005 4 0x000000ff = Opcode UsedId BadOctets
0x00030005 4 0x00620061 = Opcode UsedId BadOctets
0x00020011 6 = Opcode UnknownEnumerant ; OpCapability Kernel
0x00040047 2 11 0 = Opcode UsedId Literal UnknownEnumerant ; BuiltIn Position
0x00040047 2 30 0 = Opcode UsedId UnknownEnumerant Literal ; Location 0
0x00060010 1 18 1 1 1 = Opcode UsedId UnknownEnumerant Literal Literal Literal ; LocalSizeHint 1 1 1
0x0006000c 8 1 2 31 20 = Opcode TypeId DefinedId UsedId UnknownEnumerant UsedId ; Sqrt %20
0x0004003e 1 2 8 = Opcode UsedId UsedId UnknownEnumerant ; OpStore %1 %2 with a bit of no memory operand
0x0004000b 1 0x4c534c47 0 = Opcode DefinedId UnknownEnumerant UnknownEnumerant ; %1 = OpExtInstImport GLSL

= 107
0x00010000 = 106 ; OpNop
0x000103e7 = 106 ; an opcode that SPIR-V does not have
0x00020005 4 = 107 ; a name without a word
0x00040005 4 0x00000061 0 = 107 ; a name with a word behind it
0x0006000c 8 1 2 38 20 = 107 ; UMin with one operand
0x00060034 8 21 52 14 15 = 106 ; OpSpecConstantOp of itself
0x00060034 8 21 0x00010080 14 15 = 106 ; OpSpecConstantOp of an opcode of more than a half word
0x00050034 8 21 128 14 = 107 ; OpSpecConstantOp of IAdd with one operand
0x000400fb 8 9 5 = 107 ; OpSwitch with a literal that has no label
0x0005003d 8 18 17 2 = 107 ; Aligned without its literal
0x00020003 2 = 107 ; OpSource without a version
0x000500fa 1 2 3 4 = 107 ; OpBranchConditional with one weight
";

fn add_role(alloc: Global, told: &mut String, role: &Role) -> Result<(), Fail> {
    let named = format!(in alloc; "{role:?} ")?;
    told.push_str(&named)?;
    Ok(())
}

/// The part of each word, or the rule that is broken.
fn told(alloc: Global, words: &[u32]) -> Result<String, Fail> {
    let mut roles = Vec::new(alloc);
    if let Some(rule) = push_roles(alloc, words, &mut roles)? {
        return Ok(format!(in alloc; "{rule}")?);
    }
    let mut told = String::new(alloc);
    for role in roles.as_slice() {
        add_role(alloc, &mut told, role)?;
    }
    Ok(told)
}

/// Whether of these words this is told.
fn is_told(alloc: Global, words: &str, wanted: &str) -> Result<bool, Fail> {
    let words = numbers(alloc, words)?;
    Ok(told(alloc, &words)?.trim() == wanted)
}

#[test]
fn each_word_has_its_part(rt: HostRuntime) -> Result<(), Fail> {
    for line in PARTS.lines() {
        if let Some((words, wanted)) = case(line)? {
            assert!(rt; is_told(rt.alloc(), words, wanted)?, "{line}");
        }
    }
    Ok(())
}

/// The words at the front of an instruction, the most operands behind them and how many more are too many, for the
/// members of OpTypeStruct, the parameters of OpTypeFunction, the indexes of OpAccessChain, in a constant too, and the
/// words of the pairs of OpSwitch.
const MOST: &str = "
30 1 = 16383 1
33 1 2 = 255 1
65 8 1 2 = 255 1
52 8 1 65 2 = 255 1
251 8 9 = 32766 2
";

/// Whether this rule is broken by an instruction with so many operands behind its front.
fn breaks(alloc: Global, front: &[u32], count: u32, rule: Option<u16>) -> Result<bool, Fail> {
    let mut words = Vec::from_slice(alloc, front)?;
    for _operand in 0..count {
        words.push(7)?;
    }
    let mut roles = Vec::new(alloc);
    Ok(push_roles(alloc, &words, &mut roles)? == rule)
}

/// Whether so many operands fit behind a front, and a step more are too many.
fn is_most(alloc: Global, front: &[u32], most: &[u32]) -> Result<bool, Fail> {
    let [most, step] = most else {
        return Ok(false);
    };
    Ok(
        breaks(alloc, front, *most, None)?
            && breaks(alloc, front, most.saturating_add(*step), Some(107))?,
    )
}

#[test]
fn four_counts_have_a_greatest_value(rt: HostRuntime) -> Result<(), Fail> {
    for line in MOST.lines() {
        if let Some((front, most)) = case(line)? {
            let front = numbers(rt.alloc(), front)?;
            let most = numbers(rt.alloc(), most)?;
            assert!(rt; is_most(rt.alloc(), &front, &most)?, "{line}");
        }
    }
    Ok(())
}

/// Whether the row of an opcode has this section, and a result with a type or without one.
fn is_row(opcode: u16, section: Option<u8>, types: bool, defines: bool) -> bool {
    row_of(opcode).map(|row| row.section) == section
        && has_result_type(opcode) == types
        && has_result(opcode) == defines
}

#[test]
fn rows_tell_sections_and_fronts(rt: HostRuntime) {
    // OpTypeInt, OpIMul, OpStore, OpNop
    assert!(rt;
        is_row(21, Some(section::DECLARATIONS), false, true)
            && is_row(132, Some(section::FUNCTIONS), true, true)
            && is_row(62, Some(section::FUNCTIONS), false, false)
            && is_row(0, None, false, false)
    );
    assert!(rt;
        front_count(&[Opcode, TypeId, DefinedId, UsedId, UsedId]) == 3
            && opcode_of(0x0005_0084) == 132
            && count_of(0x0005_0084) == 5
    );
}

#[test]
fn enumerants_and_strings_are_known(rt: HostRuntime) {
    // Workgroup, and DontInline with Const; Block, Binding, WorkgroupSize, UClamp
    assert!(rt;
        is_known_enumerant(Enumerant::StorageClass, 4)
            && is_known_enumerant(Enumerant::FunctionControl, 10)
            && is_known_memory_mask(7)
            && has_alignment(3)
            && is_bare_decoration(2)
            && is_numbered_decoration(33)
            && is_known_builtin(25)
            && ext_operands(44) == Some(3)
    );
    assert!(rt;
        text_words(&[0x6e69_616d, 0, 7]) == 2
            && is_text(b"main\0\0\0\0")
            && is_set_name(b"GLSL.std.450\0\0\0\0")
    );
}

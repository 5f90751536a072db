ghost use Rattle.std.specs.Prelude.{◌≡◌, IfOk};
ghost use Rattle.spv_ids.specs.Ids.{kind};

use crate::modules::module;
use spv_ids::{Definitions, broken_id_rule};
use spv_module::{Flat, NoMemory};
use spv_opcodes::op;
use std::alloc::Global;
use std::test::Fail;
use test_texts::{Table, Tells, Unread, first_wrong, framed};

/// A function that adds a constant to itself; a line of a file marks a type. Behind it a case has the place of a word, and
/// the word that comes there.
const FRAME: &str = "
; the header; OpCapability Shader; OpMemoryModel Logical GLSL450
0x07230203 0x00010600 0 20 0 0x00020011 1 0x0003000e 0 1
; OpEntryPoint GLCompute %1 main; OpExecutionMode %1 LocalSize 1 1 1
0x0005000f 5 1 0x6e69616d 0 0x00060010 1 17 1 1 1
; %2 = OpString a; OpLine %2 1 1
0x00030007 2 97 0x00040008 2 1 1
; %3 = OpTypeVoid; %4 = OpTypeFunction %3; %5 = OpTypeInt 32 0; %6 = OpConstant %5 7
0x00020013 3 0x00030021 4 3 0x00040015 5 32 0 0x0004002b 5 6 7
; %1 = OpFunction %3 None %4; %7 = OpLabel; %8 = OpIAdd %5 %6 %6; OpReturn; OpFunctionEnd
0x00050036 3 1 0 4 0x000200f8 7 0x00050080 5 8 6 6 0x000100fd 0x00010038
|
";

/// The module of words after one of them was changed, as the place and the word behind them tell.
fn changed(alloc: Global, words: &[u32]) -> Result<Option<Flat>, NoMemory> {
    let [adding @ .., place, word] = words else {
        return Ok(None);
    };
    let mut adding = adding.to_vec(alloc)?;
    if let Some(old) = adding.get_mut(*place as usize) {
        *old = *word;
    }
    Ok(module(alloc, adding.as_slice()))
}

/// The instructions that break a rule on ids, each with the least. Where the words are no module, a word that no case
/// wants.
fn broken(alloc: Global, words: &[u32]) -> Result<Vec<u32>, NoMemory> {
    let mut broken = Vec::new(alloc);
    let Some(flat) = changed(alloc, words)? else {
        broken.push(u32::MAX)?;
        return Ok(broken);
    };
    let definitions = Definitions::of(alloc, &flat)?;
    let mut begun = false;
    'instructions: for k in 0..flat.count() {
        let inst = flat.at(k);
        if let Some(rule) = broken_id_rule(&definitions, begun, k, &inst) {
            broken.push(k)?;
            broken.push(u32::from(rule))?;
        }
        begun = begun || inst.opcode() == op::FUNCTION;
    }
    Ok(broken)
}

/// The rules on ids.
struct IdRules;

impl Tells for IdRules {
    fn tell(&self, alloc: Global, words: &[u32]) -> Result<Vec<u32>, Unread> {
        match broken(alloc, words) {
            Ok(broken) => Ok(broken),
            Err(_) => Err(Unread::NoMemory),
        }
    }
}

/// The place of a word and the word that comes there; and each instruction that breaks a rule, with the rule: 301 IdTwice,
/// 302 IdUnknown.
const CASES: &str = "
0 0x07230203 = ; as it is
50 6 = 12 301 ; a second definition
34 3 = 8 301 9 302 12 302 ; a second definition, and nothing left to define %5
32 5 = 7 302 ; a type of one that is defined later
32 4 = 7 302 ; a type of itself
38 9 = 9 302 ; a constant of a type that nothing defines
45 8 = ; a function of a type that is defined in it
51 8 = ; a sum of itself
51 9 = 12 302 ; a sum of an id that nothing defines
12 9 = 2 302 ; an entry point that nothing defines
25 9 = ; a line of a file that nothing defines
40 9 = ; a constant's number that no id has
";

#[test]
fn the_rules_on_ids_are_told(rt: HostRuntime) -> Result<(), Fail> {
    let table = Table {
        names: "",
        frame: FRAME,
        cases: CASES,
    };
    let wrong = first_wrong(rt.alloc(), &IdRules, &table)?;
    assert!(rt; wrong.is_none(), "{wrong:?}");
    Ok(())
}

/// The opcode of the instruction that defines an id in a module.
fn kind_in(alloc: Global, flat: &Flat, id: u32) -> Result<u16, NoMemory>
    ensures { IfOk result (λ opcode. opcode ≡ kind flat.now.insts id) }
{
    let definitions = Definitions::of(alloc, flat)?;
    Ok(definitions.kind(id))
}

/// Whether definitions are found by their ids.
fn are_found(definitions: &Definitions) -> bool {
    definitions.place(6) == Some(9)
        && definitions.place(9) == None
        && definitions.place(u32::MAX) == None
        && definitions.find(0).is_none()
        && definitions.kind(6) == op::CONSTANT
        && definitions.kind(8) == 0
        && definitions.insts().count() == 15
}

/// Whether the words of definitions are read.
fn are_read(definitions: &Definitions) -> bool {
    definitions.word(5, 2) == 32
        && definitions.word(5, 4) == 0
        && definitions.words(6, 1) == [5, 6, 7].as_slice()
        && definitions.words(6, 4).is_empty()
        && definitions.words(8, 0).is_empty()
}

/// Whether both hold of a module.
fn has_definitions(alloc: Global, flat: &Flat) -> Result<bool, NoMemory> {
    let definitions = Definitions::of(alloc, flat)?;
    Ok(are_found(&definitions) && are_read(&definitions))
}

#[test]
fn definitions_are_found(rt: HostRuntime) -> Result<(), Fail> {
    let words = framed(rt.alloc(), "", FRAME, "50 6")?;
    let flat = changed(rt.alloc(), words.as_slice())?;
    assert!(rt; flat.is_some());
    if let Some(flat) = &flat {
        assert!(rt; has_definitions(rt.alloc(), flat)?);
        assert!(rt; kind_in(rt.alloc(), flat, 1)? == op::FUNCTION);
    }
    Ok(())
}

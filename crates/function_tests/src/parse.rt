ghost use Rattle.std.specs.Prelude.{◌≡◌, IfOk, IfSome, slice_get};
ghost use Rattle.spv_blocks.specs.Cutting.{starts as starts_in};
ghost use Rattle.spv_parse.specs.Functions.{IsLaidOut};

use spv_base::{Fault, MAGIC, NoMemory};
use spv_blocks::{Function, Labels, starts};
use spv_flow::has_own_labels;
use spv_module::{Flat, decode};
use spv_parse::{Parsed, parse_function};
use std::alloc::Global;
use std::collections::BTreeSet;
use std::test::Fail;
use test_texts::{Table, Tells, Unread, first_wrong, words};

/// What parsing a function answers, beside the first broken rule. First words of instructions: `switch` is OpSwitch with two
/// cases, `phiofone` and `phi` OpPhi with one pair and with two. The type of a condition, a condition, and a selector.
const NAMES: &str = "
tree = 0
deep = 901
label = 0x000200f8
return = 0x000100fd
branch = 0x000200f9
phiofone = 0x000500f5
bool = 5
condition = 6
selection = 0x000300f7
branchif = 0x000400fa
phi = 0x000700f5
switch = 0x000700fb
selector = 16
loop = 0x000400f6
functionend = 0x00010038
";

/// What stands before the first label of the function.
const FRONT: &str = "
; the header; OpCapability Shader; OpMemoryModel Logical GLSL450
0x07230203 0x00010600 0 1000 0 0x00020011 1 0x0003000e 0 1
; OpEntryPoint GLCompute %1 main; OpExecutionMode %1 LocalSize 1 1 1
0x0005000f 5 1 0x6e69616d 0 0x00060010 1 17 1 1 1
; %3 = OpTypeVoid; %4 = OpTypeFunction %3; %5 = OpTypeBool; %6 = OpConstantTrue %5
0x00020013 3 0x00030021 4 3 0x00020014 5 0x00030029 5 6
; %15 = OpTypeInt 32 0; %16 = OpConstant %15 7
0x00040015 15 32 0 0x0004002b 15 16 7
; %1 = OpFunction %3 None %4
0x00050036 3 1 0 4
";

/// A module of one function, from its first label on.
const FRAME: &str = "
; the header; OpCapability Shader; OpMemoryModel Logical GLSL450
0x07230203 0x00010600 0 1000 0 0x00020011 1 0x0003000e 0 1
; OpEntryPoint GLCompute %1 main; OpExecutionMode %1 LocalSize 1 1 1
0x0005000f 5 1 0x6e69616d 0 0x00060010 1 17 1 1 1
; %3 = OpTypeVoid; %4 = OpTypeFunction %3; %5 = OpTypeBool; %6 = OpConstantTrue %5
0x00020013 3 0x00030021 4 3 0x00020014 5 0x00030029 5 6
; %15 = OpTypeInt 32 0; %16 = OpConstant %15 7
0x00040015 15 32 0 0x0004002b 15 16 7
; %1 = OpFunction %3 None %4
0x00050036 3 1 0 4
|
functionend
";

/// Functions of each kind of item, and what is refused. Behind the `=` stand `tree` with the number of items of the
/// outermost sequence and how deep the tree nests; or the first broken rule; or nothing, where the function may not be
/// parsed.
const CASES: &str = "
label 20 return = tree 0 0 ; one block
label 20 branch 21 label 21 phiofone bool 40 condition 20 branch 22 label 22 return = tree 1 0 ; joined blocks: a copy for an OpPhi
; a selection; its OpPhi names the parents in another order
label 20 selection 23 0 branchif condition 21 22 label 21 branch 23 label 22 branch 23 label 23 phi bool 40 condition 22 condition 21 return = tree 1 1
label 20 selection 23 0 branchif condition 21 22 label 22 branch 23 label 23 return label 21 branch 23 = tree 1 1 ; its blocks in another order
; a switch whose default is its merge block
label 20 selection 23 0 switch selector 23 1 21 2 22 label 21 branch 23 label 22 branch 23 label 23 return = tree 1 1
label 20 selection 23 0 switch selector 23 1 21 2 21 label 21 branch 23 label 23 return = tree 1 1 ; a switch with two literals of one case
label 20 branch 21 label 21 loop 24 23 0 branchif condition 22 24 label 22 branch 23 label 23 branch 21 label 24 return = tree 1 1 ; a loop
; a loop whose header is the merge block of a selection
label 20 selection 21 0 branchif condition 19 21 label 19 branch 21 label 21 loop 24 23 0 branch 22 label 22 branch 23 label 23 branch 21 label 24 return = tree 2 1
; a loop whose body leaves it or goes on, without a merge instruction
label 20 branch 21 label 21 loop 24 23 0 branch 22 label 22 branchif condition 24 25 label 25 branchif condition 27 23 label 27 branch 23 label 23 branch 21 label 24 return = tree 1 1
; a loop in a loop
label 20 branch 21 label 21 loop 24 23 0 branch 22 label 22 loop 26 25 0 branchif condition 27 26 label 27 branch 25 label 25 branchif condition 26 22 label 26 branch 23 label 23 branch 21 label 24 return = tree 1 2
; a selection whose arm is a loop
label 20 selection 30 0 branchif condition 21 30 label 21 loop 24 23 0 branchif condition 22 24 label 22 branch 23 label 23 branch 21 label 24 branch 30 label 30 return = tree 1 2
; a conditional exit that goes on at a loop
label 20 selection 30 0 branchif condition 19 30 label 19 branchif condition 30 21 label 21 loop 24 23 0 branchif condition 22 24 label 22 branch 23 label 23 branch 21 label 24 branch 30 label 30 return = tree 1 2
label 20 branchif condition 21 22 label 21 return label 22 return = 407 ; 407 BareBranch: a conditional branch that leaves nothing
label 20 phiofone bool 40 condition 20 return = 406 ; 406 BadPhi: in the first block
label 20 return label 20 return = ; two blocks with one label
";

/// The label of the k-th header of nested selections, counted from 0.
fn header(k: u16) -> u32 {
    20 + 2 * u32::from(k)
}

/// The label of the merge block of the k-th.
fn merge(k: u16) -> u32 {
    21 + 2 * u32::from(k)
}

/// The headers of so many selections, each in the first arm of the one before, and the first label in the last of them.
fn push_headers(words: &mut Vec<u32>, depth: u16) -> Result<(), NoMemory> {
    'headers: for k in 0..depth {
        words.extend_from_slice(&[
            0x0002_00f8,
            header(k),
            0x0003_00f7,
            merge(k),
            0,
            0x0004_00fa,
            6,
            header(k + 1),
            merge(k),
        ])?;
    }
    words.extend_from_slice(&[0x0002_00f8, header(depth)])?;
    Ok(())
}

/// Their merge blocks, the innermost first.
fn push_merges(words: &mut Vec<u32>, depth: u16) -> Result<(), NoMemory> {
    'merges: for k in (0..depth).rev() {
        words.extend_from_slice(&[0x0002_00f9, merge(k), 0x0002_00f8, merge(k)])?;
    }
    words.push(0x0001_00fd)?;
    Ok(())
}

/// The words of a module of one function, of so many nested selections.
fn nested(alloc: Global, depth: u16) -> Result<Vec<u32>, Fail> {
    let mut insts = words(alloc, "", FRONT)?;
    push_headers(&mut insts, depth)?;
    push_merges(&mut insts, depth)?;
    insts.push(0x0001_0038)?;
    Ok(insts)
}

/// A module of these words, if they spell one.
fn module(alloc: Global, words: &[u32]) -> Result<Option<Flat>, NoMemory>
    ensures { IfOk result (λ flat. IfSome flat (λ code. IsLaidOut code.insts)) }
{
    if words.len() < 5 || words.len() > 10_000 || words[0] != MAGIC {
        return Ok(None);
    }
    match decode(alloc, words) {
        Ok(flat) => Ok(Some(flat)),
        Err(Fault::NoMemory) => Err(NoMemory),
        Err(_) => Ok(None),
    }
}

/// The number of the first OpFunction.
fn first_function(alloc: Global, flat: &Flat) -> Result<Option<u32>, NoMemory>
    ensures { IfOk result (λ first. IfSome first (λ k. slice_get (starts_in flat.now.insts) 0 ≡ Some k)) }
{
    let starts = starts(alloc, flat)?;
    Ok(starts.get(0).copied())
}

/// What parsing answers; none where memory is wanting.
fn answer(alloc: Global, parsed: Result<Parsed, Fault>) -> Result<Vec<u32>, NoMemory> {
    let mut told = Vec::new(alloc);
    match parsed {
        Ok(parsed) => {
            told.push(0)?;
            told.push(parsed.body.sequence.items.len().min(1000) as u32)?;
            told.push(parsed.body.depth())?;
        }
        Err(Fault::Refused(refusal)) => told.push(u32::from(refusal.rule))?,
        Err(Fault::Nesting) => told.push(901)?,
        Err(Fault::NoMemory) => return Err(NoMemory),
    }
    Ok(told)
}

/// What parsing the one function of a module answers; nothing where it may not be parsed.
fn parse(alloc: Global, words: &[u32]) -> Result<Vec<u32>, NoMemory> {
    let Some(flat) = module(alloc, words)? else {
        return Ok(Vec::new(alloc));
    };
    if flat.functions() == 0 {
        return Ok(Vec::new(alloc));
    }
    let Some(first) = first_function(alloc, &flat)? else {
        return Ok(Vec::new(alloc));
    };
    let function = Function::at(alloc, &flat, first)?;
    let labels = Labels::of(alloc, &function)?;
    if !has_own_labels(&function, &labels) {
        return Ok(Vec::new(alloc));
    }
    flat.insts().each_is_instruction();
    let pointers = BTreeSet::new(alloc);
    answer(alloc, parse_function(alloc, &flat, &pointers, first))
}

/// Parsing.
struct Parsing;

impl Tells for Parsing {
    fn tell(&self, alloc: Global, words: &[u32]) -> Result<Vec<u32>, Unread> {
        match parse(alloc, words) {
            Ok(told) => Ok(told),
            Err(_) => Err(Unread::NoMemory),
        }
    }
}

#[test]
fn functions_are_parsed(rt: HostRuntime) -> Result<(), Fail> {
    let table = Table {
        names: NAMES,
        frame: FRAME,
        cases: CASES,
    };
    let wrong = first_wrong(rt.alloc(), &Parsing, &table)?;
    assert!(rt; wrong.is_none(), "{wrong:?}");
    Ok(())
}

/// Whether parsing so many nested selections answers this.
fn nesting_is_told(alloc: Global, depth: u16, wanted: &[u32]) -> Result<bool, Fail> {
    let words = nested(alloc, depth)?;
    let told = parse(alloc, words.as_slice())?;
    Ok(told.as_slice() == wanted)
}

#[test]
fn nesting_has_a_limit(rt: HostRuntime) -> Result<(), Fail> {
    assert!(rt; nesting_is_told(rt.alloc(), 255, &[0, 1, 255])?);
    assert!(rt; nesting_is_told(rt.alloc(), 256, &[901])?);
    Ok(())
}

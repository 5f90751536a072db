use crate::modules::module;
use spv_base::NoMemory;
use spv_blocks::{Function, Labels};
use spv_flow::{Flow, first_broken, has_own_labels};
use spv_module::Flat;
use std::alloc::Global;
use std::collections::BTreeSet;
use std::test::Fail;
use test_texts::{Table, Tells, Unread, first_wrong, framed, rule};

/// What is told where no rule is broken; first words of instructions, OpSwitch with two cases and OpPhi with two pairs; the
/// type of a condition, a condition, a selector, and the type of a pointer.
const NAMES: &str = "
clean = 0
label = 0x000200f8
return = 0x000100fd
selection = 0x000300f7
branchif = 0x000400fa
condition = 6
branch = 0x000200f9
phi = 0x000700f5
bool = 5
switch = 0x000700fb
selector = 16
loop = 0x000400f6
pointer = 17
functionend = 0x00010038
";

/// A module of one function, from its first label on.
const FRAME: &str = "
; the header; OpCapability Shader; OpMemoryModel Logical GLSL450
0x07230203 0x00010600 0 60 0 0x00020011 1 0x0003000e 0 1
; OpEntryPoint GLCompute %1 main; OpExecutionMode %1 LocalSize 1 1 1
0x0005000f 5 1 0x6e69616d 0 0x00060010 1 17 1 1 1
; %3 = OpTypeVoid; %4 = OpTypeFunction %3; %5 = OpTypeBool; %6 = OpConstantTrue %5
0x00020013 3 0x00030021 4 3 0x00020014 5 0x00030029 5 6
; %15 = OpTypeInt 32 0; %16 = OpConstant %15 7
0x00040015 15 32 0 0x0004002b 15 16 7
; %1 = OpFunction %3 None %4
0x00050036 3 1 0 4
|
functionend
";

/// How many words stand before the first label.
const FRONT: u32 = 44;

/// The type of a pointer.
const POINTER: u32 = 17;

/// Functions that break nothing, each rule broken at its place, near misses, and functions with two broken rules. Behind
/// the `=` stand `clean` and how many constructs lie round one point; or the first broken rule, and its place behind the
/// first label; or nothing, where two blocks have one label.
const CASES: &str = "
label 20 return = clean 0 ; one block
; a selection; its OpPhi names the parents in another order
label 20 selection 23 0 branchif condition 21 22 label 21 branch 23 label 22 branch 23 label 23 phi bool 40 condition 22 condition 21 return = clean 1
; a switch whose default is its merge block
label 20 selection 23 0 switch selector 23 1 21 2 22 label 21 branch 23 label 22 branch 23 label 23 return = clean 1
label 20 selection 23 0 switch selector 23 1 21 2 21 label 21 branch 23 label 23 return = clean 1 ; a switch with two literals of one case
label 20 branch 21 label 21 loop 24 23 0 branchif condition 22 24 label 22 branch 23 label 23 branch 21 label 24 return = clean 1 ; a loop
; a loop whose body leaves it or goes on, without a merge instruction
label 20 branch 21 label 21 loop 24 23 0 branchif condition 22 24 label 22 branchif condition 23 24 label 23 branch 21 label 24 return = clean 1
; a loop whose continue part leaves it or goes back
label 20 branch 21 label 21 loop 24 23 0 branchif condition 22 24 label 22 branch 23 label 23 branchif condition 24 21 label 24 return = clean 1
; a loop that a selection in its body leaves
label 20 branch 21 label 21 loop 24 23 0 branchif condition 22 24 label 22 selection 25 0 branchif condition 24 25 label 25 branch 23 label 23 branch 21 label 24 return = clean 2
; a loop with a selection in its continue part
label 20 branch 21 label 21 loop 24 23 0 branchif condition 22 24 label 22 branch 23 label 23 selection 26 0 branchif condition 25 26 label 25 branch 26 label 26 branch 21 label 24 return = clean 2
; a loop with another in its body
label 20 branch 21 label 21 loop 24 23 0 branchif condition 22 24 label 22 branch 25 label 25 loop 28 27 0 branchif condition 26 28 label 26 branch 27 label 27 branch 25 label 28 branch 23 label 23 branch 21 label 24 return = clean 2
label 20 label 21 return = 401 2 ; 401: a block without a terminator
label 20 branch 20 = 402 2 ; 402: a branch to the first block
label 20 branch 50 = 402 2 ; 402: a branch to what is no label
label 20 return label 21 return = 402 3 ; 402: a block that is never entered
; 402: an OpSwitch with one literal twice
label 20 selection 23 0 switch selector 23 1 21 1 22 label 21 branch 23 label 22 branch 23 label 23 return = 402 5
; 402: a body that branches to its own loop's header, at the branch into the loop
label 20 branch 21 label 21 loop 24 23 0 branchif condition 22 24 label 22 branch 21 label 23 branch 21 label 24 return = 402 2
; 402: a block that two branches lead to and no merge instruction names
label 20 selection 23 0 branchif condition 21 22 label 21 branch 24 label 22 branch 24 label 24 branch 23 label 23 return = 402 11
; 403: a merge block that two merge instructions name
label 20 selection 23 0 branchif condition 21 23 label 21 selection 23 0 branchif condition 22 23 label 22 branch 23 label 23 return = 403 2
label 20 branch 21 label 21 loop 24 50 0 branchif condition 22 24 label 22 branch 24 label 24 return = 403 6 ; 403: a continue target that is no label
label 20 switch selector 21 1 21 2 22 label 21 return label 22 return = 403 2 ; 403: an OpSwitch without a merge instruction
label 20 selection 21 0 branch 21 label 21 return = 403 2 ; 403: a merge instruction before OpBranch
label 20 loop 22 21 0 branchif condition 21 22 label 21 branch 20 label 22 return = 403 2 ; 403: an OpLoopMerge in the first block
; 404: a case that falls into another
label 20 selection 23 0 switch selector 23 1 21 2 22 label 21 branch 22 label 22 branch 23 label 23 return = 404 14
; 404: a case that falls into another from a selection in it
label 20 selection 23 0 switch selector 23 1 21 2 22 label 21 selection 25 0 branchif condition 22 25 label 25 branch 23 label 22 branch 23 label 23 return = 404 17
; 405: a continue part that a return leaves, beside its back edge
label 20 branch 21 label 21 loop 24 23 0 branchif condition 22 24 label 22 branch 23 label 23 selection 26 0 branchif condition 25 26 label 25 return label 26 branch 21 label 24 return = 405 29
; 405: a continue part without a back edge, at its OpLoopMerge
label 20 branch 21 label 21 loop 24 23 0 branchif condition 22 24 label 22 branch 23 label 23 return label 24 return = 405 6
label 20 branch 21 label 21 loop 24 21 0 branchif condition 21 24 label 24 return = 405 6 ; 405: a header that is its own continue target
; 406: an OpPhi with a parent that is none
label 20 selection 23 0 branchif condition 21 22 label 21 branch 23 label 22 branch 23 label 23 phi bool 40 condition 21 condition 20 return = 406 19
; 406: an OpPhi with one parent twice
label 20 selection 23 0 branchif condition 21 22 label 21 branch 23 label 22 branch 23 label 23 phi bool 40 condition 21 condition 21 return = 406 19
; 406: an OpPhi of pointers
label 20 selection 23 0 branchif condition 21 22 label 21 branch 23 label 22 branch 23 label 23 phi pointer 40 condition 22 condition 21 return = 406 19
label 20 branchif condition 21 22 label 21 return label 22 return = 407 2 ; 407: a branch on a condition with no merge instruction and no exit
label 20 selection 21 0 branchif condition 21 21 label 21 return = 408 5 ; 408: a branch on a condition with one target twice
; 410: a header neither of whose targets is its merge block
label 20 branch 21 label 21 loop 24 23 0 branchif condition 22 25 label 22 branch 23 label 23 branch 21 label 25 branch 24 label 24 return = 410 10
label 20 branchif condition 21 22 label 21 return label 22 label 23 return = 407 2 ; two broken rules: 407 in the first block, before 401
; two broken rules: 401 at a block that is not walked, before 407
label 20 branch 22 label 21 label 22 branchif condition 23 24 label 23 return label 24 return = 401 6
label 20 branchif condition 21 21 label 21 return = 407 2 ; two broken rules at one place, the lesser first
; a block that is never entered, behind another broken rule that is found
label 20 branch 22 label 21 return label 22 branchif condition 23 24 label 23 return label 24 return = 407 9
label 20 branch 21 label 21 return label 21 return = ; two blocks with one label
";

/// What is told of a function, by its tables.
fn look(alloc: Global, flat: &Flat) -> Result<Vec<u32>, NoMemory> {
    let mut told = Vec::new(alloc);
    let function = Function::of(alloc, flat, 0)?;
    let labels = Labels::of(alloc, &function)?;
    if !has_own_labels(&function, &labels) {
        return Ok(told);
    }
    let mut pointers = BTreeSet::new(alloc);
    pointers.insert(POINTER)?;
    let alone = first_broken(alloc, &pointers, &function)?;
    match Flow::of(alloc, &pointers, &function, &labels)? {
        Ok(flow) if alone.is_none() => {
            told.push(0)?;
            told.push(flow.depth(&labels, &function).min(1000) as u32)?;
        }
        Err(refusal) if alone == Some(refusal) => {
            told.push(u32::from(refusal.rule))?;
            told.push(refusal.at.saturating_sub(FRONT))?;
        }
        _ => {}
    }
    Ok(told)
}

/// The control flow of the first function of a module; a word that no case wants where there is no module.
struct Walked;

impl Tells for Walked {
    fn tell(&self, alloc: Global, words: &[u32]) -> Result<Vec<u32>, Unread> {
        let Some(flat) = module(alloc, words) else {
            return rule(alloc, Some(1));
        };
        match look(alloc, &flat) {
            Ok(told) => Ok(told),
            Err(_) => Err(Unread::NoMemory),
        }
    }
}

#[test]
fn functions_are_told(rt: HostRuntime) -> Result<(), Fail> {
    let table = Table {
        names: NAMES,
        frame: FRAME,
        cases: CASES,
    };
    let wrong = first_wrong(rt.alloc(), &Walked, &table)?;
    assert!(rt; wrong.is_none(), "{wrong:?}");
    Ok(())
}

/// A loop whose tables are looked at.
const LOOP: &str = "
label 20 branch 21 label 21 loop 24 23 0 branchif condition 22 24 label 22 branch 23 label 23 branch 21 label 24 return
";

/// The tables of a function that breaks no rule.
fn tables(alloc: Global, flat: &Flat) -> Result<Option<Flow>, NoMemory> {
    let function = Function::of(alloc, flat, 0)?;
    let labels = Labels::of(alloc, &function)?;
    if !has_own_labels(&function, &labels) {
        return Ok(None);
    }
    Ok(Flow::of(alloc, &BTreeSet::new(alloc), &function, &labels)?.ok())
}

/// Whether the tables of the loop hold what they should: %22 is entered from the header, and %23, the continue
/// target, from no block; %24 is walked outside all constructs, %22 is walked, and %30 is none.
fn are_tables(flow: &Flow) -> bool {
    flow.enterers().get(22) == Some(21)
        && flow.enterers().get(23) == None
        && flow.walked().place(24) == Some(0)
        && flow.walked().place(22).is_some()
        && flow.walked().place(30) == None
}

/// Whether these are the tables of the function of a module.
fn has_tables(alloc: Global, flat: &Flat) -> Result<bool, NoMemory> {
    match tables(alloc, flat)? {
        Some(flow) => Ok(are_tables(&flow)),
        None => Ok(false),
    }
}

#[test]
fn tables_are_handed_out(rt: HostRuntime) -> Result<(), Fail> {
    let words = framed(rt.alloc(), NAMES, FRAME, LOOP)?;
    let flat = module(rt.alloc(), words.as_slice());
    assert!(rt; flat.is_some());
    if let Some(flat) = &flat {
        assert!(rt; has_tables(rt.alloc(), flat)?);
    }
    Ok(())
}

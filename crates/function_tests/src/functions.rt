ghost use Rattle.std.specs.Prelude.{◌≡◌, true, None, IfOk, IfSome};
ghost use Rattle.spv_module.specs.First.{first};
ghost use Rattle.spv_declarations.specs.Broken.{group_3};
ghost use Rattle.spv_types.specs.Whole.{Rises};
ghost use Rattle.spv_functions.specs.Functions.{IsDeclared};

use spv_base::{Fault, MAGIC, NoMemory};
use spv_blocks::{Function, Labels};
use spv_functions::{Functions, normalize, parse};
use spv_module::{Flat, InstList, decode};
use spv_sources::{is_front, is_loop};
use spv_tree::flatten;
use spv_types::tables;
use std::alloc::Global;
use std::test::Fail;
use test_texts::{Table, Tells, Unread, first_wrong};

/// What is asked of all functions, and of the first one where it is refused. First words of instructions: `phi` is OpPhi
/// with two pairs, `phiof1` and `phiof3` with one and with three, `call` OpFunctionCall without arguments, `copy`
/// OpCopyObject, `weighted` OpBranchConditional with branch weights, `switch` OpSwitch with two cases, `returning`
/// OpReturnValue, `deadend` OpUnreachable. Ids: `action` is the type of a function without parameters and value, `test` of
/// one from a boolean to a boolean.
const NAMES: &str = "
all = 0xffffffff
refused = 0xfffffffe
function = 0x00050036
void = 3
main = 1
action = 4
label = 0x000200f8
noline = 0x0001013d
return = 0x000100fd
end = 0x00010038
branch = 0x000200f9
phiof1 = 0x000500f5
bool = 5
true = 6
deadend = 0x000100ff
copy = 0x00040053
selection = 0x000300f7
branchif = 0x000400fa
phi = 0x000700f5
false = 8
switch = 0x000700fb
seven = 16
loop = 0x000400f6
phiof3 = 0x000900f5
weighted = 0x000600fa
uint = 15
call = 0x00040039
test = 9
parameter = 0x00030037
returning = 0x000200fe
pointer = 17
";

/// What stands before the functions; functions; the number of one of them, or what else is asked.
const FRAME: &str = "
; the header; OpCapability Shader; OpMemoryModel Logical GLSL450
0x07230203 0x00010600 0 60 0 0x00020011 1 0x0003000e 0 1
; OpEntryPoint GLCompute %1 main; OpExecutionMode %1 LocalSize 1 1 1
0x0005000f 5 1 0x6e69616d 0 0x00060010 1 17 1 1 1
; OpTypeVoid, OpTypeFunction, OpTypeBool, OpTypeFunction
0x00020013 3 0x00030021 4 3 0x00020014 5 0x00040021 9 5 5
; OpConstantTrue, OpConstantFalse
0x00030029 5 6 0x0003002a 5 8
; OpTypeInt 32 0, OpConstant 7, OpTypePointer Function
0x00040015 15 32 0 0x0004002b 15 16 7 0x00040020 17 7 15
|
|
";

/// Functions with each kind of item, the number of one, and its normal form; and functions that are refused, with the first
/// rule that is broken.
const CASES: &str = "
; one block
function void main 0 action label 20 noline return end | 0 = function void main 0 action label 20 return end
; joined blocks, with an OpPhi that becomes OpCopyObject
function void main 0 action label 20 branch 21 label 21 phiof1 bool 40 true 20 branch 22 label 22 deadend end | 0 = function void main 0 action label 20 copy bool 40 true deadend end
; a selection: its arms change places, and the pairs of its OpPhi stay
function void main 0 action label 20 selection 23 0 branchif true 21 22 label 22 branch 23 label 23 phi bool 40 true 22 false 21 return label 21 branch 23 end | 0 = function void main 0 action label 20 selection 23 0 branchif true 21 22 label 21 branch 23 label 22 branch 23 label 23 phi bool 40 true 22 false 21 return end
; the same with an arm of two blocks, which are joined: the OpPhi names the label that stays
function void main 0 action label 20 selection 23 0 branchif true 21 22 label 22 branch 24 label 24 branch 23 label 21 branch 23 label 23 phi bool 40 true 24 false 21 return end | 0 = function void main 0 action label 20 selection 23 0 branchif true 21 22 label 21 branch 23 label 22 branch 23 label 23 phi bool 40 true 22 false 21 return end
; a switch with two literals of one case, whose default is its merge block
function void main 0 action label 20 selection 23 0 switch seven 23 1 21 2 21 label 23 return label 21 branch 23 end | 0 = function void main 0 action label 20 selection 23 0 switch seven 23 1 21 2 21 label 21 branch 23 label 23 return end
; a loop that a branch enters
function void main 0 action label 20 branch 21 label 21 phi bool 40 false 23 true 20 loop 24 23 0 branchif 40 22 24 label 24 return label 22 branch 23 label 23 branch 21 end | 0 = function void main 0 action label 20 branch 21 label 21 phi bool 40 false 23 true 20 loop 24 23 0 branchif 40 22 24 label 22 branch 23 label 23 branch 21 label 24 return end
; a loop whose header is the merge block of a selection
function void main 0 action label 20 selection 21 0 branchif true 19 21 label 19 branch 21 label 21 phiof3 bool 40 false 23 true 20 true 19 loop 24 23 0 branch 22 label 24 return label 22 branch 23 label 23 branchif 40 21 24 end | 0 = function void main 0 action label 20 selection 21 0 branchif true 19 21 label 19 branch 21 label 21 phiof3 bool 40 false 23 true 20 true 19 loop 24 23 0 branch 22 label 22 branch 23 label 23 branchif 40 21 24 label 24 return end
; a loop with a conditional exit without a merge instruction, and with branch weights
function void main 0 action label 20 branch 21 label 21 loop 24 23 0 branch 22 label 22 weighted true 24 25 1 9 label 24 return label 25 branch 23 label 23 branch 21 end | 0 = function void main 0 action label 20 branch 21 label 21 loop 24 23 0 branch 22 label 22 branchif true 24 25 label 25 branch 23 label 23 branch 21 label 24 return end
; a loop without a body, whose header has an OpPhi behind a line mark, and a joined block behind its merge block
function void main 0 action label 20 branch 21 label 21 noline phi uint 40 seven 20 40 23 loop 24 23 0 branch 23 label 23 weighted true 21 24 1 1 label 24 branch 25 label 25 phiof1 uint 41 seven 24 return end | 0 = function void main 0 action label 20 branch 21 label 21 phi uint 40 seven 20 40 23 loop 24 23 0 branch 23 label 23 branchif true 21 24 label 24 copy uint 41 seven return end
; a call of another function
function void main 0 action label 20 call void 41 30 return end function void 30 0 action label 31 branch 32 label 32 return end | 0 = function void main 0 action label 20 call void 41 30 return end
; the second function
function void main 0 action label 20 call void 41 30 return end function void 30 0 action label 31 branch 32 label 32 return end | 1 = function void 30 0 action label 31 return end
; a function with a parameter, which returns a value
function void main 0 action label 20 return end function bool 30 0 test parameter bool 33 label 31 returning 33 end | 1 = function bool 30 0 test parameter bool 33 label 31 returning 33 end
; two functions, of which the first calls the second, and the normal forms of both, read from one table
function void main 0 action label 20 call void 41 30 return end function void 30 0 action label 31 branch 32 label 32 return end | all = function void main 0 action label 20 call void 41 30 return end function void 30 0 action label 31 return end
; 402: a body that branches to its own loop's header
function void main 0 action label 20 branch 21 label 21 loop 24 23 0 branchif true 22 24 label 22 branch 21 label 23 branch 21 label 24 return end | refused = 402
; 403: a merge block that two merge instructions name
function void main 0 action label 20 selection 23 0 branchif true 21 23 label 21 selection 23 0 branchif true 22 23 label 22 branch 23 label 23 return end | refused = 403
; 403: a continue target that is no label
function void main 0 action label 20 branch 21 label 21 loop 24 true 0 branchif true 22 24 label 22 branch 24 label 24 return end | refused = 403
; 406: an OpPhi of pointers
function void main 0 action label 20 branch 21 label 21 phiof1 pointer 40 true 20 return end | refused = 406
; 407: a branch on a condition with no merge instruction and no exit
function void main 0 action label 20 branchif true 21 22 label 21 return label 22 return end | refused = 407
";

/// A function with a loop: %20 branches to the header %21, whose OpPhi %40 takes %16 from %20 and itself from the continue
/// target %23; behind the loop's merge block %24 a joined block %25. A case has a label.
const TURNING: &str = "
; the header; OpCapability Shader; OpMemoryModel Logical GLSL450
0x07230203 0x00010600 0 60 0 0x00020011 1 0x0003000e 0 1
; OpEntryPoint GLCompute %1 main; OpExecutionMode %1 LocalSize 1 1 1
0x0005000f 5 1 0x6e69616d 0 0x00060010 1 17 1 1 1
; OpTypeVoid, OpTypeFunction, OpTypeBool, OpTypeFunction
0x00020013 3 0x00030021 4 3 0x00020014 5 0x00040021 9 5 5
; OpConstantTrue, OpConstantFalse
0x00030029 5 6 0x0003002a 5 8
; OpTypeInt 32 0, OpConstant 7, OpTypePointer Function
0x00040015 15 32 0 0x0004002b 15 16 7 0x00040020 17 7 15
function void main 0 action label 20 branch 21 label 21 noline phi uint 40 seven 20 40 23 loop 24 23 0 branch 23 label 23 weighted true 21 24 1 1 label 24 branch 25 label 25 phiof1 uint 41 seven 24 return end
|
";

/// Its labels: whether the block is a front, and whether it is a loop's header.
const FRONTS: &str = "
20 = 0 0
21 = 1 1
23 = 1 0
24 = 1 0
25 = 0 0
";

/// Whether a module breaks no rule on declarations.
fn is_declared(alloc: Global, flat: &Flat) -> Result<bool, NoMemory>
    requires { Rises flat.now.insts }
    ensures { IfOk result (λ is. is ≡ true → first (group_3 flat.now.insts) ≡ None) }
{
    match tables(alloc, flat) {
        Ok(_) => Ok(true),
        Err(Fault::NoMemory) => Err(NoMemory),
        Err(_) => Ok(false),
    }
}

/// A module of these words. None where it breaks a rule on layout or on declarations.
fn module(alloc: Global, words: &[u32]) -> Result<Option<Flat>, NoMemory>
    ensures { IfOk result (λ flat. IfSome flat (λ code. IsDeclared code.insts)) }
{
    if words.len() < 5 || words.len() > 1000 || words[0] != MAGIC {
        return Ok(None);
    }
    let Ok(flat) = decode(alloc, words) else {
        return Ok(None);
    };
    if is_declared(alloc, &flat)? {
        Ok(Some(flat))
    } else {
        Ok(None)
    }
}

fn words_of(alloc: Global, insts: &InstList) -> Result<Vec<u32>, NoMemory> {
    let mut words = Vec::new(alloc);
    'instructions: for k in 0..insts.count() {
        words.extend_from_slice(insts.at(k).words)?;
    }
    Ok(words)
}

/// The words of the normal form of a function of a module; none where a rule is broken.
fn normal_form(alloc: Global, words: &[u32], f: u32) -> Result<Vec<u32>, NoMemory> {
    let Some(flat) = module(alloc, words)? else {
        return Ok(Vec::new(alloc));
    };
    if f >= flat.functions() {
        return Ok(Vec::new(alloc));
    }
    match normalize(alloc, &flat, f) {
        Ok(insts) => words_of(alloc, &insts),
        Err(Fault::NoMemory) => Err(NoMemory),
        Err(_) => Ok(Vec::new(alloc)),
    }
}

/// The words of the normal forms of all functions of a module, read from one `Functions`; none where a rule is broken.
fn normal_forms(alloc: Global, words: &[u32]) -> Result<Vec<u32>, NoMemory> {
    let mut normal = Vec::new(alloc);
    let Some(flat) = module(alloc, words)? else {
        return Ok(normal);
    };
    let functions = Functions::of(alloc, &flat)?;
    'functions: for f in 0..flat.functions() {
        match functions.parse(alloc, &flat, f) {
            Ok(body) => normal.extend_from_slice(&words_of(alloc, &flatten(alloc, &body)?)?)?,
            Err(Fault::NoMemory) => return Err(NoMemory),
            Err(_) => return Ok(Vec::new(alloc)),
        }
    }
    Ok(normal)
}

/// The first rule on structured control flow that the first function of a module breaks.
fn broken_rule(alloc: Global, words: &[u32]) -> Result<Option<u16>, NoMemory> {
    let Some(flat) = module(alloc, words)? else {
        return Ok(None);
    };
    if flat.functions() == 0 {
        return Ok(None);
    }
    match parse(alloc, &flat, 0) {
        Err(Fault::Refused(refusal)) => Ok(Some(refusal.rule)),
        Err(Fault::NoMemory) => Err(NoMemory),
        _ => Ok(None),
    }
}

/// What is told of a function of a module, or of all, in front of what is asked; no answer where there is no such module.
fn told(alloc: Global, words: &[u32]) -> Result<Vec<u32>, NoMemory> {
    let [words @ .., asked] = words else {
        return Ok(Vec::new(alloc));
    };
    if *asked == u32::MAX {
        return normal_forms(alloc, words);
    }
    if *asked != 0xffff_fffe {
        return normal_form(alloc, words, *asked);
    }
    let mut told = Vec::new(alloc);
    if let Some(rule) = broken_rule(alloc, words)? {
        told.push(u32::from(rule))?;
    }
    Ok(told)
}

/// The normal forms of functions.
struct Normal;

impl Tells for Normal {
    fn tell(&self, alloc: Global, words: &[u32]) -> Result<Vec<u32>, Unread> {
        match told(alloc, words) {
            Ok(told) => Ok(told),
            Err(_) => Err(Unread::NoMemory),
        }
    }
}

#[test]
fn functions_are_normalized(rt: HostRuntime) -> Result<(), Fail> {
    let table = Table {
        names: NAMES,
        frame: FRAME,
        cases: CASES,
    };
    let wrong = first_wrong(rt.alloc(), &Normal, &table)?;
    assert!(rt; wrong.is_none(), "{wrong:?}");
    Ok(())
}

/// Whether a label of the first function of a module is a front, and whether a loop's header: 1 where it is.
fn front(alloc: Global, words: &[u32]) -> Result<Vec<u32>, NoMemory> {
    let mut told = Vec::new(alloc);
    let [words @ .., label] = words else {
        return Ok(told);
    };
    let Some(flat) = module(alloc, words)? else {
        return Ok(told);
    };
    let function = Function::of(alloc, &flat, 0)?;
    let labels = Labels::of(alloc, &function)?;
    told.push(u32::from(is_front(&labels, *label)))?;
    told.push(u32::from(is_loop(&labels, *label)))?;
    Ok(told)
}

/// The fronts of a function.
struct FrontLabels;

impl Tells for FrontLabels {
    fn tell(&self, alloc: Global, words: &[u32]) -> Result<Vec<u32>, Unread> {
        match front(alloc, words) {
            Ok(told) => Ok(told),
            Err(_) => Err(Unread::NoMemory),
        }
    }
}

#[test]
fn fronts_are_told(rt: HostRuntime) -> Result<(), Fail> {
    let table = Table {
        names: NAMES,
        frame: TURNING,
        cases: FRONTS,
    };
    let wrong = first_wrong(rt.alloc(), &FrontLabels, &table)?;
    assert!(rt; wrong.is_none(), "{wrong:?}");
    Ok(())
}

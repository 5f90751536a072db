use crate::modules::module;
use spv_calls::{Calls, Entries, first_broken};
use spv_decorations::Decorations;
use spv_module::NoMemory;
use spv_typing::Kinds;
use std::alloc::Global;
use std::test::Fail;
use test_texts::{Table, Tells, Unread, first_wrong, rule_at};

/// First words of instructions, and numbers in them. `entry` is OpEntryPoint with a name of two words and no id behind it,
/// `entry1` to `entry3` are those with one to three; "main" and "mama" stand in front of a word of zeros.
const NAMES: &str = "
entry = 0x0005000f
entry1 = 0x0006000f
entry2 = 0x0007000f
entry3 = 0x0008000f
size = 0x00060010
name = 0x00030005
function = 0x00050036
label = 0x000200f8
call = 0x00040039
variable = 0x0004003b
load = 0x0004003d
store = 0x0003003e
return = 0x000100fd
end = 0x00010038
line = 0x00040008
main = 0x6e69616d
mama = 0x616d616d
compute = 5
literals = 17
";

/// The header; OpCapability Shader; OpMemoryModel Logical GLSL450. At 10 the entry points, and what stands behind them.
///
/// %2 void; %3 function of nothing; %4 uint; %5 a constant of it; %6 and %7 pointers of Private and of Function to it.
/// Variables: %8, %9 and %10 of Private. Then the functions, which are at 54 where one entry point has no interface and a
/// size.
const FRAME: &str = "
0x07230203 0x00010600 0 90 0 0x00020011 1 0x0003000e 0 1
|
|
0x00020013 2 0x00030021 3 2 0x00040015 4 32 0 0x0004002b 4 5 7 0x00040020 6 6 4 0x00040020 7 7 4
0x0004003b 6 8 6 0x0004003b 6 9 6 0x0004003b 6 10 6
|
";

/// Entry points; what stands behind them; functions; and what is first broken with the number of the word at which it is,
/// or 0 where nothing is.
const CASES: &str = "
entry compute 1 main 0 | size 1 literals 8 1 1 | function 2 1 0 3 label 30 return end = 0 ; one function
; 601
; a chain of calls
entry compute 1 main 0 | size 1 literals 8 1 1 | function 2 1 0 3 label 30 call 2 31 40 return end function 2 40 0 3 label 41 call 2 42 50 call 2 43 50 return end function 2 50 0 3 label 51 return end = 0
; two ways to one function
entry compute 1 main 0 | size 1 literals 8 1 1 | function 2 1 0 3 label 30 call 2 31 40 call 2 32 50 return end function 2 40 0 3 label 41 call 2 42 50 return end function 2 50 0 3 label 51 return end = 0
; a function that calls itself
entry compute 1 main 0 | size 1 literals 8 1 1 | function 2 1 0 3 label 30 call 2 31 40 return end function 2 40 0 3 label 41 call 2 42 40 return end = 601 67
; two functions that call each other, behind one that calls them
entry compute 1 main 0 | size 1 literals 8 1 1 | function 2 1 0 3 label 30 call 2 31 50 return end function 2 40 0 3 label 41 call 2 42 50 return end function 2 50 0 3 label 51 call 2 52 40 return end = 601 67
; a cycle that a function before it is called from
entry compute 1 main 0 | size 1 literals 8 1 1 | function 2 1 0 3 label 30 return end function 2 60 0 3 label 61 return end function 2 40 0 3 label 41 call 2 42 50 return end function 2 50 0 3 label 51 call 2 52 60 call 2 53 40 return end = 601 72
; a function between two cycles
entry compute 1 main 0 | size 1 literals 8 1 1 | function 2 1 0 3 label 30 return end function 2 60 0 3 label 61 call 2 62 40 return end function 2 50 0 3 label 51 call 2 52 50 call 2 53 60 return end function 2 40 0 3 label 41 call 2 42 40 return end = 601 76
; 602
entry1 compute 1 main 0 8 | size 1 literals 8 1 1 | function 2 1 0 3 label 30 load 4 31 8 return end = 0 ; what the function names, listed
entry3 compute 1 main 0 8 9 10 | size 1 literals 8 1 1 | function 2 1 0 3 label 30 load 4 31 8 return end = 0 ; what nothing names, listed
entry1 compute 1 main 0 9 | size 1 literals 8 1 1 | function 2 1 0 3 label 30 load 4 31 8 return end = 602 10 ; what the function reads, not listed
entry compute 1 main 0 | size 1 literals 8 1 1 | function 2 1 0 3 label 30 store 10 5 return end = 602 10 ; what the function writes, not listed
entry compute 1 main 0 | size 1 literals 8 1 1 | function 2 1 0 3 label 30 variable 7 31 7 load 4 32 31 return end = 0 ; a variable of the function
; what a function two calls away names, listed
entry2 compute 1 main 0 9 8 | size 1 literals 8 1 1 | function 2 1 0 3 label 30 load 4 31 8 call 2 32 40 return end function 2 40 0 3 label 41 call 2 42 50 return end function 2 50 0 3 label 51 load 4 52 9 return end = 0
; what a function two calls away names, not listed
entry1 compute 1 main 0 8 | size 1 literals 8 1 1 | function 2 1 0 3 label 30 load 4 31 8 call 2 32 40 return end function 2 40 0 3 label 41 call 2 42 50 return end function 2 50 0 3 label 51 load 4 52 9 return end = 602 10
; what a function that is not called names
entry compute 1 main 0 | size 1 literals 8 1 1 | function 2 1 0 3 label 30 return end function 2 40 0 3 label 41 load 4 42 9 return end = 0
entry compute 1 main 0 | size 1 literals 8 1 1 name 8 0 | function 2 1 0 3 label 30 return end = 0 ; a name and no more
entry compute 1 main 0 | size 1 literals 8 1 1 | function 2 1 0 3 label 30 line 8 1 1 return end = 0 ; a line mark of which it is the file, and no more
entry compute 1 main 0 | size 1 literals 8 1 1 | function 2 1 0 3 label 30 line 8 1 1 load 4 31 8 return end = 602 10 ; what is named behind a line mark, not listed
entry3 compute 1 main 0 8 9 8 | size 1 literals 8 1 1 | function 2 1 0 3 label 30 return end = 602 10 ; one listed twice
entry1 compute 1 main 0 6 | size 1 literals 8 1 1 | function 2 1 0 3 label 30 return end = 602 10 ; a type, listed
entry1 compute 1 main 0 31 | size 1 literals 8 1 1 | function 2 1 0 3 label 30 variable 7 31 7 return end = 602 10 ; a variable of the function, listed
entry1 compute 1 main 0 80 | size 1 literals 8 1 1 | function 2 1 0 3 label 30 return end = 602 10 ; what nothing defines, listed
; the second of two entry points lacks one
entry1 compute 1 main 0 8 entry compute 1 mama 0 | size 1 literals 8 1 1 | function 2 1 0 3 label 30 load 4 31 8 return end = 602 16
; several
; an interface and a cycle
entry1 compute 1 main 0 6 | size 1 literals 8 1 1 | function 2 1 0 3 label 30 return end function 2 40 0 3 label 41 call 2 42 40 return end = 602 10
entry1 compute 1 main 0 6 | | function 2 1 0 3 label 30 return end = 602 10 ; no interface and no size
entry compute 1 main 0 | | function 2 1 0 3 label 30 call 2 31 1 return end = 605 10 ; no size and a cycle
";

/// What is first broken, and where; at 0 the rule 0 where the words are no module.
fn broken(alloc: Global, words: &[u32]) -> Result<Option<(u16, u32)>, NoMemory> {
    let Some(flat) = module(alloc, words) else {
        return Ok(Some((0, 0)));
    };
    let kinds = Kinds::of(alloc, &flat)?;
    let decorations = Decorations::of(alloc, flat.insts())?;
    let entries = Entries::of(alloc, &kinds, &decorations)?;
    let calls = Calls::of(alloc, &kinds)?;
    match first_broken(alloc, &calls, &entries)? {
        Some(refusal) => Ok(Some((refusal.rule, refusal.at))),
        None => Ok(None),
    }
}

/// The rules on the whole module, in order.
struct Rules;

impl Tells for Rules {
    fn tell(&self, alloc: Global, words: &[u32]) -> Result<Vec<u32>, Unread> {
        match broken(alloc, words) {
            Ok(broken) => rule_at(alloc, broken),
            Err(_) => Err(Unread::NoMemory),
        }
    }
}

#[test]
fn rules_are_told(rt: HostRuntime) -> Result<(), Fail> {
    let table = Table {
        names: NAMES,
        frame: FRAME,
        cases: CASES,
    };
    let wrong = first_wrong(rt.alloc(), &Rules, &table)?;
    assert!(rt; wrong.is_none(), "{wrong:?}");
    Ok(())
}

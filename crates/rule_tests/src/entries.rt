ghost use Rattle.std.specs.Prelude.{◌≡◌};

use crate::modules::module;
use spv_decorations::Decorations;
use spv_entries::Entries;
use spv_module::{Flat, NoMemory};
use spv_typing::Kinds;
use std::alloc::Global;
use std::test::Fail;
use test_texts::{Table, Tells, Unread, first_wrong};

/// First words of instructions, and numbers in them. `entry` is OpEntryPoint with a name of two words and no interface;
/// "main" and "mama" stand in front of a word of zeros.
const NAMES: &str = "
entry = 0x0005000f
size = 0x00060010
sizeid = 0x0006014b
decorate = 0x00040047
variable = 0x0004003b
function = 0x00050036
parameter = 0x00030037
label = 0x000200f8
call = 0x00040039
return = 0x000100fd
end = 0x00010038
main = 0x6e69616d
mama = 0x616d616d
compute = 5
literals = 17
ids = 38
set = 34
binding = 33
uniform = 2
storage = 12
";

/// The header; OpCapability Shader; OpMemoryModel Logical GLSL450. Entry points; modes; decorations.
///
/// %2 void; %3 function of nothing; %4 uint; %11 function of %4; %6 bool; %9 vector of 3 uint; %13 struct of %4.
/// Constants: %5 is 1, %8 is 1 or given, %7 true, %10 three of %5. Pointers: %14 of Uniform, %15 of StorageBuffer, both
/// to %13; %16 of Workgroup to %4. Variables; functions.
const FRAME: &str = "
0x07230203 0x00010600 0 60 0 0x00020011 1 0x0003000e 0 1
|
|
|
0x00020013 2 0x00030021 3 2 0x00040015 4 32 0 0x00040021 11 2 4 0x00020014 6 0x00040017 9 4 3
0x0003001e 13 4 0x0004002b 4 5 1 0x00040032 4 8 1 0x00030029 6 7 0x0006002c 9 10 5 5 5
0x00040020 14 2 13 0x00040020 15 12 13 0x00040020 16 4 4 0x00030001 4 17 0x00040015 18 32 1
|
|
";

/// Entry points; modes; decorations; variables; functions; and what is broken: each time the opcode of an instruction (15
/// OpEntryPoint, 16 OpExecutionMode, 331 OpExecutionModeId, 59 OpVariable) and the least rule that it breaks, or 0 where
/// nothing is.
const CASES: &str = "
entry compute 1 main 0 | size 1 literals 8 1 1 | | | function 2 1 0 3 label 30 return end = 0 ; sound
; 603
; a buffer of each class
entry compute 1 main 0 | size 1 literals 8 1 1 | decorate 20 set 1 decorate 20 binding 2 decorate 21 set 1 decorate 21 binding 3 | variable 14 20 uniform variable 15 21 storage | function 2 1 0 3 label 30 return end = 0
; two buffers of one class at one place
entry compute 1 main 0 | size 1 literals 8 1 1 | decorate 20 set 1 decorate 20 binding 2 decorate 21 set 1 decorate 21 binding 2 | variable 15 20 storage variable 15 21 storage | function 2 1 0 3 label 30 return end = 0
; two buffers of both classes at one place
entry compute 1 main 0 | size 1 literals 8 1 1 | decorate 20 set 1 decorate 20 binding 2 decorate 21 set 1 decorate 21 binding 2 | variable 14 20 uniform variable 15 21 storage | function 2 1 0 3 label 30 return end = 59 603
; set and binding exchanged
entry compute 1 main 0 | size 1 literals 8 1 1 | decorate 20 set 1 decorate 20 binding 2 decorate 21 set 2 decorate 21 binding 1 | variable 15 20 storage variable 14 21 uniform | function 2 1 0 3 label 30 return end = 0
entry compute 1 main 0 | size 1 literals 8 1 1 | decorate 20 binding 2 | variable 15 20 storage | function 2 1 0 3 label 30 return end = 59 603 ; no set
entry compute 1 main 0 | size 1 literals 8 1 1 | decorate 20 set 2 | variable 14 20 uniform | function 2 1 0 3 label 30 return end = 59 603 ; no binding
entry compute 1 main 0 | size 1 literals 8 1 1 | | variable 16 20 4 | function 2 1 0 3 label 30 return end = 0 ; neither, in Workgroup
entry compute 1 main 0 | size 1 literals 8 1 1 | | | function 2 1 0 3 label 30 variable 14 20 uniform return end = 0 ; neither, in a function
; 604
entry compute 1 main 0 entry compute 1 mama 0 | size 1 literals 8 1 1 | | | function 2 1 0 3 label 30 return end = 0 ; two names
entry compute 1 main 0 entry compute 1 main 0 | size 1 literals 8 1 1 | | | function 2 1 0 3 label 30 return end = 15 604 ; one name twice
; one name three times
entry compute 1 main 0 entry compute 1 mama 0 entry compute 1 main 0 entry compute 1 main 0 | size 1 literals 8 1 1 | | | function 2 1 0 3 label 30 return end = 15 604 15 604
; one name with another interface
entry compute 1 main 0 0x0006000f compute 1 main 0 20 | size 1 literals 8 1 1 | | variable 16 20 4 | function 2 1 0 3 label 30 return end = 15 604
entry compute 1 main 0 entry compute 1 main 97 | size 1 literals 8 1 1 | | | function 2 1 0 3 label 30 return end = 0 ; a name that begins another
; 605
entry compute 1 main 0 | | | | function 2 1 0 3 label 30 return end = 15 605 ; no size
entry compute 1 main 0 | sizeid 1 ids 5 8 17 | | | function 2 1 0 3 label 30 return end = 0 ; by ids
entry compute 1 main 0 | size 1 literals 8 1 1 sizeid 1 ids 5 8 17 | | | function 2 1 0 3 label 30 return end = 0 ; by both
entry compute 1 main 0 | | decorate 10 11 25 | | function 2 1 0 3 label 30 return end = 0 ; by a constant
entry compute 1 main 0 | | decorate 10 11 24 | | function 2 1 0 3 label 30 return end = 15 605 ; by a constant that is a built-in of another kind
entry compute 1 main 0 | | decorate 9 11 25 | | function 2 1 0 3 label 30 return end = 15 605 ; by a type
entry compute 1 main 0 | size 1 literals 8 1 1 size 1 literals 8 1 1 | | | function 2 1 0 3 label 30 return end = 15 605 ; twice by literals
entry compute 1 main 0 | sizeid 1 ids 5 5 5 sizeid 1 ids 5 5 5 | | | function 2 1 0 3 label 30 return end = 15 605 ; twice by ids
entry compute 1 main 0 | size 1 literals 8 1 0 | | | function 2 1 0 3 label 30 return end = 15 605 ; a size of 0
entry compute 1 main 0 | size 1 literals 0 1 1 | decorate 10 11 25 | | function 2 1 0 3 label 30 return end = 15 605 ; a size of 0, and a constant
entry compute 1 main 0 | sizeid 1 ids 5 5 7 | | | function 2 1 0 3 label 30 return end = 15 605 ; by a boolean
entry compute 1 main 0 | sizeid 1 ids 10 5 5 | | | function 2 1 0 3 label 30 return end = 15 605 ; by a vector
entry compute 1 main 0 | sizeid 1 ids 5 4 5 | | | function 2 1 0 3 label 30 return end = 15 605 ; by the type of integers
entry compute 1 main 0 | sizeid 1 ids 5 5 59 | | | function 2 1 0 3 label 30 return end = 15 605 ; by what nothing defines
entry compute 1 main 0 | size 1 literals 8 1 1 size 2 literals 8 1 1 | | | function 2 1 0 3 label 30 return end = 16 605 ; the size of no entry point
entry compute 1 main 0 | sizeid 59 ids 5 5 5 size 1 literals 8 1 1 | | | function 2 1 0 3 label 30 return end = 331 605 ; the size by ids of no entry point
; two functions, one of them without a size
entry compute 1 main 0 entry compute 40 mama 0 | size 1 literals 8 1 1 | | | function 2 1 0 3 label 30 return end function 2 40 0 3 label 41 return end = 15 605
; 606
entry compute 4 main 0 | size 4 literals 8 1 1 | | | function 2 1 0 3 label 30 return end = 15 606 ; no function
entry compute 59 main 0 | size 59 literals 8 1 1 | | | function 2 1 0 3 label 30 return end = 15 606 ; what nothing defines
entry compute 1 main 0 | size 1 literals 8 1 1 | | | function 2 1 0 11 parameter 4 42 label 30 return end = 15 606 ; a function with a parameter
entry compute 1 main 0 | size 1 literals 8 1 1 | | | function 4 1 0 3 label 30 return end = 15 606 ; a function that returns a number
; a function that another calls
entry compute 1 main 0 | size 1 literals 8 1 1 | | | function 2 1 0 3 label 30 return end function 2 40 0 3 label 41 call 2 42 1 return end = 15 606
; a function that calls another
entry compute 1 main 0 | size 1 literals 8 1 1 | | | function 2 1 0 3 label 30 call 2 42 40 return end function 2 40 0 3 label 41 return end = 0
; the least of several
entry compute 4 main 0 entry compute 4 main 0 | | | variable 14 20 uniform | function 2 1 0 3 label 30 return end = 15 605 15 604 59 603 ; all four
";

/// Adds what is broken, instruction by instruction.
fn add_broken(told: &mut Vec<u32>, flat: &Flat, entries: &Entries) -> Result<(), NoMemory>
    requires { entries.now ≡ flat.now.insts }
{
    'instructions: for k in 0..flat.insts().count() {
        let inst = flat.insts().at(k);
        if let Some(rule) = entries.broken_rule(k, &inst) {
            told.push(u32::from(inst.opcode()))?;
            told.push(u32::from(rule))?;
        }
    }
    Ok(())
}

/// What is broken, instruction by instruction; 0 where nothing is, and no answer where the words are no module.
fn told(alloc: Global, words: &[u32]) -> Result<Vec<u32>, NoMemory> {
    let mut told = Vec::new(alloc);
    let Some(flat) = module(alloc, words) else {
        return Ok(told);
    };
    let kinds = Kinds::of(alloc, &flat)?;
    let decorations = Decorations::of(alloc, flat.insts())?;
    let entries = Entries::of(alloc, &kinds, &decorations)?;
    add_broken(&mut told, &flat, &entries)?;
    if told.is_empty() {
        told.push(0)?;
    }
    Ok(told)
}

/// The rules on bindings and entry points.
struct Rules;

impl Tells for Rules {
    fn tell(&self, alloc: Global, words: &[u32]) -> Result<Vec<u32>, Unread> {
        match told(alloc, words) {
            Ok(told) => Ok(told),
            Err(_) => Err(Unread::NoMemory),
        }
    }
}

#[test]
fn rules_are_told(rt: HostRuntime) -> Result<(), Fail> {
    let table = Table {
        names: NAMES,
        frame: FRAME,
        cases: CASES,
    };
    let wrong = first_wrong(rt.alloc(), &Rules, &table)?;
    assert!(rt; wrong.is_none(), "{wrong:?}");
    Ok(())
}

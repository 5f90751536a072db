use crate::modules::module;
use spv_base::Fault;
use spv_signatures::{Context, Signatures, broken_signature_rule};
use spv_types::tables;
use std::alloc::Global;
use std::test::Fail;
use test_texts::{Table, Tells, Unread, first_wrong, rule_at};

/// The header; OpCapability Shader; OpMemoryModel Logical GLSL450; OpEntryPoint GLCompute %1 "main"; OpString %60;
/// Volatile on %20 and %31.
///
/// %2 = OpTypeVoid; %3 = OpTypeInt 32 0; %6 = OpTypeInt 32 1; %8 and %9 = OpTypePointer to %3, of Function and of Private.
/// OpTypeFunction: %4 is %2 of nothing, %11 is %3 of %3 and %8, %12 is %2 of %9, %13 is %2 of %3, %14 is %2 of two %3, %15
/// is %3 of nothing. Constants: %5 is 1 of %3, %7 is 1 of %6. %10 and %20 are variables of Private.
///
/// %1 = OpFunction %2 None %4; %100 = OpLabel; the instructions that a case gives, up to the end of the last function
/// before the callees.
///
/// OpFunctionEnd, and functions with one block each: %30 of %12 with the parameter %31, %40 of %11 with %41 and %42, %50 of %12 with %51, and
/// %55 of %4.
const FRAME: &str = "
0x07230203 0x00010600 0 200 0 0x00020011 1 0x0003000e 0 1 0x0005000f 5 1 0x6e69616d 0
0x00030007 60 27755 0x00030047 20 21 0x00030047 31 21 0x00020013 2 0x00040015 3 32 0 0x00030021 4 2
0x0004002b 3 5 1 0x00040015 6 32 1 0x0004002b 6 7 1 0x00040020 8 7 3 0x00040020 9 6 3
0x0004003b 9 10 6 0x00050021 11 3 3 8 0x00040021 12 2 9 0x00040021 13 2 3 0x0004003b 9 20 6
0x00050021 14 2 3 3 0x00030021 15 3
0x00050036 2 1 0 4 0x000200f8 100
|
0x00010038 0x00050036 2 30 0 12 0x00030037 9 31 0x000200f8 32 0x000100fd 0x00010038
0x00050036 3 40 0 11 0x00040008 60 1 1 0x00030037 3 41 0x0001013d 0x00030037 8 42 0x000200f8 43
0x000200fe 41 0x00010038 0x00050036 2 50 0 12 0x00030037 9 51 0x000200f8 52 0x000100fd 0x00010038
0x00050036 2 55 0 4 0x000200f8 56 0x000100fd 0x00010038
";

/// How many instructions are declarations.
const DECLARED: u32 = 21;

/// The first broken rule of 501, 502, 506 and 507, and at which instruction behind the declarations, counted from 0; 0
/// and 0 where the words spell no module.
fn broken(alloc: Global, words: &[u32]) -> Result<Option<(u16, u32)>, Fault> {
    let Some(flat) = module(alloc, words) else {
        return Ok(Some((0, 0)));
    };
    let found = tables(alloc, &flat)?;
    let signatures = Signatures::of(alloc, &found)?;
    let mut context = Context::first();
    'instructions: for k in 0..flat.count() {
        let inst = flat.at(k);
        if let Some(rule) = broken_signature_rule(&signatures, &context, &inst) {
            return Ok(Some((rule, k.saturating_sub(DECLARED))));
        }
        context.next(found.kinds(), &inst);
    }
    Ok(None)
}

/// The rules on functions, calls and returns.
struct SignatureRules;

impl Tells for SignatureRules {
    fn tell(&self, alloc: Global, words: &[u32]) -> Result<Vec<u32>, Unread> {
        match broken(alloc, words) {
            Ok(broken) => rule_at(alloc, broken),
            Err(_) => Err(Unread::NoMemory),
        }
    }
}

// Each line of cases is the instructions between the first label and the end of the last function before the callees;
// behind the `=` the broken rule and its instruction, or 0 where none is broken.

const FUNCTIONS: &str = "
0x000100fd 0x00010038 0x00050036 2 70 0 3 0x000200f8 71 0x000100fd = 501 4 ; a function of an integer type
0x000100fd 0x00010038 0x00050036 2 70 0 13 0x00030037 3 71 0x00030037 3 72 0x000200f8 73 0x000100fd = 501 4 ; a function with a parameter too many
0x000100fd 0x00010038 0x00050036 2 70 0 14 0x00030037 3 71 0x000200f8 73 0x000100fd = 501 4 ; a function with a parameter too few
0x000100fd 0x00010038 0x00050036 3 70 0 4 0x000200f8 73 0x000200fe 5 = 502 4 ; a function that returns another type
0x000100fd 0x00010038 0x00050036 3 70 0 13 0x000200f8 73 0x000200fe 5 = 501 4 ; a function with neither
0x000100fd 0x00010038 0x00050036 2 70 0 14 0x00030037 3 71 0x00030037 6 72 0x000200f8 73 0x000100fd = 502 6 ; a parameter of another type
0x000100fd 0x00010038 0x00050036 3 70 0 11 0x00030037 8 71 0x00030037 3 72 0x000200f8 73 0x000200fe 72 = 502 5 ; parameters the wrong way round
; parameters behind line marks
0x000100fd 0x00010038 0x00050036 2 70 0 14 0x00040008 60 1 1 0x00030037 3 71 0x00040008 60 2 1 0x0001013d 0x00030037 3 72 0x000200f8 73 0x000100fd = 0
";

#[test]
fn functions_are_as_their_types_say(rt: HostRuntime) -> Result<(), Fail> {
    let table = Table {
        names: "",
        frame: FRAME,
        cases: FUNCTIONS,
    };
    let wrong = first_wrong(rt.alloc(), &SignatureRules, &table)?;
    assert!(rt; wrong.is_none(), "{wrong:?}");
    Ok(())
}

const CALLS: &str = "
0x00040039 2 101 55 0x000100fd = 0 ; a call of nothing
0x0004003b 8 102 7 0x00060039 3 101 40 5 102 0x000100fd = 0 ; a call with two arguments
0x00040039 2 101 5 0x000100fd = 506 2 ; a call of a constant
0x00040039 3 101 5 0x000100fd = 506 2 ; a call of a constant, as another type
0x00040039 2 101 100 0x000100fd = 506 2 ; a call of a label
0x00050039 3 101 40 5 0x000100fd = 506 2 ; a call with an argument too few
0x0004003b 8 102 7 0x00070039 3 101 40 5 102 5 0x000100fd = 506 3 ; a call with an argument too many
0x0004003b 8 102 7 0x00060039 3 101 40 102 5 0x000100fd = 506 3 ; a call with arguments the wrong way round
0x0004003b 8 102 7 0x00060039 3 101 40 7 102 0x000100fd = 506 3 ; a call with an argument of another type
0x0004003b 8 102 7 0x00060039 3 101 40 55 102 0x000100fd = 506 3 ; a call with a function for an argument
0x0004003b 8 102 7 0x00060039 3 101 40 3 102 0x000100fd = 506 3 ; a call with a type for an argument
0x0004003b 8 102 7 0x00060039 3 101 40 100 102 0x000100fd = 506 3 ; a call with a label for an argument
0x0004003b 8 102 7 0x00060039 3 101 40 60 102 0x000100fd = 506 3 ; a call with a string for an argument
0x0004003b 8 102 7 0x00040053 8 103 102 0x00060039 3 101 40 5 103 0x000100fd = 506 4 ; a call with a computed pointer
0x00060039 3 101 40 5 10 0x000100fd = 506 2 ; a call with a pointer of another class
0x00050039 2 101 30 20 0x000100fd = 0 ; a call with a volatile pointer
0x00050039 2 101 30 10 0x000100fd = 506 2 ; a call with a pointer that is not volatile
0x00050039 2 101 50 20 0x000100fd = 506 2 ; a call with a pointer whose parameter is not volatile
0x00050039 2 101 50 10 0x000100fd = 0 ; a call with a pointer where neither is
0x000100fd 0x00010038 0x00050036 2 70 0 12 0x00030037 9 71 0x000200f8 72 0x00050039 2 73 50 71 0x000100fd = 0 ; a call with a parameter for a pointer
0x0004003b 8 102 7 0x00060039 6 101 40 5 102 0x000100fd = 502 3 ; a call with another result
0x00040039 6 101 40 0x000100fd = 502 2 ; a call with another result and no argument
";

#[test]
fn calls_fit_their_callees(rt: HostRuntime) -> Result<(), Fail> {
    let table = Table {
        names: "",
        frame: FRAME,
        cases: CALLS,
    };
    let wrong = first_wrong(rt.alloc(), &SignatureRules, &table)?;
    assert!(rt; wrong.is_none(), "{wrong:?}");
    Ok(())
}

const RETURNS: &str = "
0x000100fd 0x00010038 0x00050036 2 70 0 4 0x000200f8 71 0x000200fe 5 = 507 6 ; a value where nothing is returned
0x000100fd 0x00010038 0x00050036 3 70 0 15 0x000200f8 71 0x000100fd = 507 6 ; nothing where a value is returned
0x000100fd 0x00010038 0x00050036 3 70 0 15 0x000200f8 71 0x000200fe 5 = 0 ; a value of the type
0x000100fd 0x00010038 0x00050036 3 70 0 15 0x000200f8 71 0x000200fe 7 = 507 6 ; a value of another type
0x000100fd 0x00010038 0x00050036 3 70 0 15 0x000200f8 71 0x000200fe 3 = 507 6 ; a type for a value
0x000100fd 0x00010038 0x00050036 3 70 0 15 0x000200f8 71 0x000200fe 40 = 507 6 ; a function for a value
; what a call of nothing gives where nothing is returned
0x000100fd 0x00010038 0x00050036 2 70 0 4 0x000200f8 71 0x00040039 2 72 55 0x000200fe 72 = 507 7
; returns of two functions
0x000100fd 0x00010038 0x00050036 3 70 0 15 0x000200f8 71 0x000200fe 5 0x00010038 0x00050036 2 75 0 4 0x000200f8 76 0x000100fd = 0
";

#[test]
fn returns_fit_their_functions(rt: HostRuntime) -> Result<(), Fail> {
    let table = Table {
        names: "",
        frame: FRAME,
        cases: RETURNS,
    };
    let wrong = first_wrong(rt.alloc(), &SignatureRules, &table)?;
    assert!(rt; wrong.is_none(), "{wrong:?}");
    Ok(())
}

use crate::modules::module;
use spv_base::Fault;
use spv_body_rules::{first_broken, lesser};
use spv_types::tables;
use std::alloc::Global;
use std::test::Fail;
use test_texts::{Table, Tells, Unread, first_wrong, rule_at};

/// The header; OpCapability Shader; OpMemoryModel Logical GLSL450; OpEntryPoint GLCompute %1 "main".
///
/// %2 = OpTypeVoid; %3 = OpTypeInt 32 0; %4 = OpTypeFunction %2; %5 = OpConstant %3 1; %6 = OpTypeBool; %7 and %11 =
/// OpTypePointer to %3, of Function and of Private; %8 = OpTypeVector %3 2; %9 = OpTypeFunction %3 %3;
/// %10 = OpConstantTrue %6; %12 is a variable of Private.
///
/// %1 = OpFunction %2 None %4; %20 = OpLabel; so what follows begins at the word 60.
const FRAME: &str = "
0x07230203 0x00010600 0 200 0 0x00020011 1 0x0003000e 0 1 0x0005000f 5 1 0x6e69616d 0 0x00020013 2
0x00040015 3 32 0 0x00030021 4 2 0x0004002b 3 5 1 0x00020014 6 0x00040020 7 7 3 0x00040017 8 3 2
0x00040021 9 3 3 0x00030029 6 10 0x00040020 11 6 3 0x0004003b 11 12 6
0x00050036 2 1 0 4 0x000200f8 20
|
";

/// The first broken rule and its place; 0 and 0 where the words spell no module.
fn broken(alloc: Global, words: &[u32]) -> Result<Option<(u16, u32)>, Fault> {
    let Some(flat) = module(alloc, words) else {
        return Ok(Some((0, 0)));
    };
    let found = tables(alloc, &flat)?;
    match first_broken(alloc, &found)? {
        Some(refusal) => Ok(Some((refusal.rule, refusal.at))),
        None => Ok(None),
    }
}

/// The rules on the instructions of functions, in order.
struct BodyRules;

impl Tells for BodyRules {
    fn tell(&self, alloc: Global, words: &[u32]) -> Result<Vec<u32>, Unread> {
        match broken(alloc, words) {
            Ok(broken) => rule_at(alloc, broken),
            Err(_) => Err(Unread::NoMemory),
        }
    }
}

/// Each line is the instructions behind the first label of the first function; behind the `=` the rule that is broken
/// first and the word at which it is, or 0 where none is broken.
const CASES: &str = "
0x0004003b 7 30 7 0x00050080 3 31 5 5 0x0003003e 12 31 0x000100fd 0x00010038 = 0 ; nothing that breaks a rule
0x00050080 3 31 5 10 0x000100fd 0x00010038 = 501 60 ; a sum with a truth value
0x00050080 3 31 5 5 0x00050080 6 32 5 5 0x000100fd 0x00010038 = 502 65 ; a sum that is a truth value
0x00050080 3 31 5 5 0x00040050 8 32 5 0x000100fd 0x00010038 = 501 65 ; a vector with a component too few
0x00040050 3 32 5 0x000100fd 0x00010038 = 502 60 ; a composite that is an integer
0x00050080 3 31 5 5 0x0004003b 7 30 7 0x000100fd 0x00010038 = 504 65 ; a variable behind a sum
0x000400e0 5 5 5 0x000100fd 0x00010038 = 505 60 ; a barrier of a device
0x00050039 2 33 1 5 0x000100fd 0x00010038 = 506 60 ; a call with an argument too many
0x000200fe 5 0x00010038 = 507 60 ; a value returned where nothing is
0x000100fd 0x00010038 0x00050036 2 40 0 9 0x000200f8 41 0x000100fd 0x00010038 = 501 62 ; a function of another type, without its parameter
0x000700ea 3 34 12 10 10 10 0x000100fd 0x00010038 = 501 60 ; an atomic sum with a truth value, in no scope
0x000700ea 3 34 12 10 10 5 0x000100fd 0x00010038 = 504 60 ; an atomic sum in no scope, through a variable of Private
0x000200fe 5 0x000200f8 21 0x00050080 3 31 5 10 0x000100fd 0x00010038 = 507 60 ; a return before a sum with a truth value
";

#[test]
fn first_broken_rules_are_found(rt: HostRuntime) -> Result<(), Fail> {
    let table = Table {
        names: "",
        frame: FRAME,
        cases: CASES,
    };
    let wrong = first_wrong(rt.alloc(), &BodyRules, &table)?;
    assert!(rt; wrong.is_none(), "{wrong:?}");
    Ok(())
}

/// Whether the lesser of two rules is the one that there is, or the lesser of both.
fn is_lesser() -> bool {
    lesser(None, None) == None
        && lesser(Some(503), None) == Some(503)
        && lesser(None, Some(503)) == Some(503)
        && lesser(Some(504), Some(503)) == Some(503)
}

#[test]
fn lesser_of_two_rules(rt: HostRuntime) -> Result<(), Fail> {
    assert!(rt; is_lesser());
    Ok(())
}

ghost use Rattle.std.specs.Prelude.{◌≤◌, length};

use crate::tests::{doubling, encoded, ends, with_input};
use std::alloc::Global;
use std::test::Fail;
use test_texts::{case, numbers};

// Each line of cases is edits of the shader at rising places: the place, how many words go there, how many come, and
// these; behind the `=` the rule and the place of the refusal, or twice 0 where the run is done, and how many bytes of the
// shader are the input, where it is not whole. The bound is 0x400, so ids from 22 on are free. Word 54 is behind the decorations, 105 behind the variables, and 141 the end.

/// The number and the name of a rule.
fn rule_name(rule: u32) -> &'static str {
    match rule {
        1 => "001 ShortInput",
        2 => "002 OddLength",
        3 => "003 NotSpirv",
        105 => "105 PastEnd",
        106 => "106 UnknownOpcode",
        201 => "201 LayoutOrder",
        202 => "202 MissingCapability",
        205 => "205 FunctionShape",
        301 => "301 IdTwice",
        302 => "302 IdUnknown",
        303 => "303 BadType",
        304 => "304 BadConstant",
        305 => "305 BadSpecOp",
        306 => "306 BadDecoration",
        307 => "307 BadLayout",
        308 => "308 BadGlobal",
        309 => "309 TypeDepth",
        401 => "401 NoTerminator",
        402 => "402 BadTarget",
        406 => "406 BadPhi",
        501 => "501 OperandType",
        502 => "502 ResultType",
        503 => "503 NotAvailable",
        504 => "504 StorageUse",
        505 => "505 ScopeOrSemantics",
        506 => "506 CallShape",
        507 => "507 ReturnType",
        601 => "601 CallCycle",
        602 => "602 Interface",
        603 => "603 Binding",
        604 => "604 EntryName",
        605 => "605 LocalSize",
        606 => "606 EntryFunction",
        607 => "607 ManyExits",
        _ => "unknown",
    }
}

/// As many of the words as there are, at most `count`, and the others.
fn split(words: &[u32], count: u32) -> (&[u32], &[u32])
    ensures { length result.1.now ≤ length words.now }
{
    words.split_at((count as usize).min(words.len()))
}

/// The shader with edits.
pub fn edited(alloc: Global, edits: &[u32]) -> Result<Vec<u32>, Fail> {
    let shader = doubling(alloc, "bound = 0x400")?;
    let mut words = Vec::new(alloc);
    let mut rest = shader.as_slice();
    let mut passed = 0;
    let mut left = edits;
    'edits: while let [place, gone, added, behind @ ..] = left {
        let (kept, from) = split(rest, place.saturating_sub(passed));
        let (come, others) = split(behind, *added);
        words.extend_from_slice(kept)?;
        words.extend_from_slice(come)?;
        (_, rest) = split(from, *gone);
        passed = place.saturating_add(*gone);
        left = others;
    }
    words.extend_from_slice(rest)?;
    Ok(words)
}

/// Whether an input ends so: refused by this rule at this place and with no output opened, or done where it is 0.
fn is_told(alloc: Global, input: &[u8], rule: u32, at: u32) -> Result<bool, Fail> {
    let mut memory = with_input(alloc, 1000, input)?;
    if rule == 0 {
        return Ok(ends(alloc, &mut memory, 0, "")? && memory.opened());
    }
    let message = format!(in alloc; "error: {} at word {at}\n", rule_name(rule))?;
    Ok(ends(alloc, &mut memory, 1, message.as_str())? && !memory.opened())
}

/// The same of the shader with edits, or its first bytes.
pub fn edits_are_told(
    alloc: Global,
    edits: &[u32],
    bytes: Option<u32>,
    rule: u32,
    at: u32,
) -> Result<bool, Fail> {
    let words = edited(alloc, edits)?;
    let mut input = encoded(alloc, words.as_slice(), false)?;
    if let Some(bytes) = bytes {
        input.truncate(bytes as usize);
    }
    is_told(alloc, input.as_slice(), rule, at)
}

/// Whether a case ends as it says.
fn is_right(alloc: Global, edits: &str, wanted: &str) -> Result<bool, Fail> {
    let edits = numbers(alloc, edits)?;
    let wanted = numbers(alloc, wanted)?;
    let [rule, at, bytes @ ..] = wanted.as_slice() else {
        return Ok(false);
    };
    edits_are_told(alloc, edits.as_slice(), bytes.first().copied(), *rule, *at)
}

/// The first line of cases that does not end as it says.
pub fn first_wrong<'a>(alloc: Global, cases: &'a str) -> Result<Option<&'a str>, Fail> {
    'cases: for line in cases.lines() {
        if let Some((edits, wanted)) = case(line)? {
            if !is_right(alloc, edits, wanted)? {
                return Ok(Some(line));
            }
        }
    }
    Ok(None)
}

/// Edits that put so many structs behind the variables, each with the one before it as its member, the first with a
/// number.
fn nested(alloc: Global, structs: u32) -> Result<Vec<u32>, Fail> {
    let mut edits = Vec::new(alloc);
    edits.extend_from_slice(&[105, 0, structs.saturating_mul(3)])?;
    let mut member = 8;
    'structs: for id in 0x40..structs.saturating_add(0x40) {
        edits.extend_from_slice(&[0x03001e, id, member])?;
        member = id;
    }
    Ok(edits)
}

const RULES: &str = "
; ---- ids and types
60 1 1 9 = 301 63 ; a type with the id of another
111 1 1 3 = 301 110 ; a label with the id of a variable
133 1 1 20 = 301 131 ; a result with the id of another
105 0 2 0x020014 8 = 301 105 ; a type with the id of one before it
138 1 1 22 = 302 136 ; a stored value that nothing defines
93 0 4 0x04001c 22 8 15 = 302 93 ; an array before its length
27 1 1 63 = 302 26 ; a name of nothing
16 1 1 63 = 302 10 ; an interface of nothing
105 0 3 0x03001e 22 22 = 302 105 ; a struct of itself
134 1 1 63 = 302 131 ; an operand that nothing defines
134 1 1 21 = 503 131 ; an operand that is its own result: it is defined, and not available
61 1 1 16 = 303 59 ; an integer of 16 bits
62 1 1 2 = 303 59 ; a third signedness
62 1 1 1 = 0 0 ; signed integers
66 1 1 1 = 303 63 ; a vector of one
66 1 1 5 = 303 63 ; a vector of five
105 0 4 0x040017 22 6 3 = 303 105 ; a vector of void
105 0 6 0x020014 22 0x040017 23 22 4 = 0 0 ; a vector of four booleans
105 0 2 0x020013 22 = 303 105 ; void twice
105 0 4 0x020014 22 0x020014 23 = 303 107 ; booleans twice
105 0 4 0x040015 22 32 0 = 303 105 ; an integer twice
105 0 4 0x040015 22 32 1 = 0 0 ; signed and unsigned integers
105 0 4 0x040017 22 8 3 = 303 105 ; a vector twice
105 0 3 0x030021 22 6 = 303 105 ; a function type twice
105 0 3 0x03001e 22 5 = 0 0 ; a struct twice
105 0 4 0x040020 22 12 4 = 0 0 ; a pointer twice
105 0 4 0x04001c 22 8 8 = 303 105 ; a length that is a type
105 0 9 0x020014 22 0x030029 22 23 0x04001c 24 8 23 = 303 110 ; a length that is a boolean
105 0 7 0x030001 8 22 0x04001c 23 8 22 = 0 0 ; a length that is undefined
105 0 4 0x04001c 22 5 15 = 303 105 ; an array of runtime arrays
105 0 4 0x04001c 22 4 15 = 303 105 ; an array of structs that end in one
105 0 3 0x03001d 22 5 = 303 105 ; a runtime array of runtime arrays
105 0 2 0x02001e 22 = 303 105 ; a struct of nothing
105 0 4 0x04001e 22 5 8 = 303 105 ; a struct that begins with a runtime array
105 0 3 0x03001e 22 4 = 303 105 ; a struct of one that ends in a runtime array
105 0 3 0x03001e 22 6 = 303 105 ; a struct of void
105 0 3 0x03001e 22 13 = 303 105 ; a struct of a pointer
105 0 4 0x040020 22 6 6 = 303 105 ; a pointer to void
105 0 4 0x040020 22 6 13 = 303 105 ; a pointer to a pointer
105 0 3 0x030021 22 13 = 303 105 ; a function that returns a pointer
105 0 4 0x040021 22 6 6 = 303 105 ; a parameter of void
105 0 4 0x040021 22 6 13 = 303 105 ; a parameter that points to an input
105 0 8 0x040020 22 7 8 0x040021 23 6 22 = 0 0 ; a parameter that points to a variable of a function
; ---- constants
90 1 1 9 = 304 89 ; a number as a vector
105 0 3 0x030029 8 22 = 304 105 ; true as an integer
105 0 3 0x030030 8 22 = 304 105 ; a specialised true as an integer
105 0 5 0x05002b 8 22 1 2 = 304 105 ; a number of two words
105 0 6 0x020014 22 0x04002b 22 23 1 = 304 107 ; a number as a boolean
105 0 4 0x040032 9 22 1 = 304 105 ; a specialised number as a vector
105 0 3 0x03002e 6 22 = 304 105 ; null as void
105 0 3 0x03002e 4 22 = 304 105 ; null as a struct that ends in a runtime array
105 0 3 0x03002e 9 22 = 0 0 ; null as a vector
105 0 3 0x030001 5 22 = 304 105 ; undefined as a runtime array
105 0 5 0x05002c 9 22 14 14 = 304 105 ; two components of three
105 0 6 0x06002c 9 22 14 14 15 = 0 0 ; three components
105 0 14 0x040015 22 32 1 0x04002b 22 23 1 0x06002c 9 24 14 14 23 = 304 113 ; a component of another type
105 0 6 0x06002c 9 22 14 14 2 = 304 105 ; a component that is a variable
105 0 4 0x04002c 8 22 14 = 304 105 ; a composite of an integer
105 0 8 0x04001c 22 8 15 0x04002c 22 23 14 = 304 109 ; one element of two
105 0 9 0x04001c 22 8 15 0x05002c 22 23 14 15 = 0 0 ; two elements
; elements of an array whose length has a SpecId
54 0 4 0x040047 22 1 7 105 0 13 0x040032 8 22 2 0x04001c 23 8 22 0x05002c 23 24 14 14 = 304 117
; elements of an array whose length is a sum of what has one
54 0 4 0x040047 22 1 7 105 0 19 0x040032 8 22 1 0x060034 8 23 128 22 22 0x04001c 24 8 23 0x05002c 24 25 14 14 = 304 123
; elements of an array whose length could have one
105 0 13 0x040032 8 22 2 0x04001c 23 8 22 0x05002c 23 24 14 14 = 0 0
; elements of an array whose length is a sum
105 0 15 0x060034 8 22 128 15 14 0x04001c 23 8 22 0x05002c 23 24 14 14 = 0 0
105 0 7 0x04001c 22 8 14 0x03002c 22 23 = 304 109 ; no elements of an array of length 0
105 0 12 0x03002e 9 22 0x04001e 23 8 9 0x05002c 23 24 14 22 = 0 0 ; members
105 0 12 0x03002e 9 22 0x04001e 23 8 9 0x05002c 23 24 22 14 = 304 112 ; members in another order
105 0 10 0x040032 8 22 1 0x06002c 9 23 14 14 22 = 304 109 ; a component that is specialised
105 0 10 0x040032 8 22 1 0x060033 9 23 14 14 22 = 0 0 ; a specialised component of a specialised vector
105 0 5 0x050033 9 22 14 14 = 304 105 ; two components of a specialised vector
105 0 6 0x060034 8 22 128 14 15 = 0 0 ; a sum
105 0 5 0x050034 8 22 204 14 = 305 105 ; bits in reverse
105 0 5 0x050034 8 22 113 14 = 305 105 ; another width
105 0 6 0x060034 8 22 128 14 2 = 305 105 ; a sum with a variable
105 0 11 0x020014 22 0x030029 22 23 0x060034 8 24 128 14 23 = 305 110 ; a sum with a boolean
105 0 8 0x020014 22 0x060034 22 23 128 14 15 = 305 107 ; a sum as a boolean
105 0 8 0x020014 22 0x060034 22 23 170 14 15 = 0 0 ; a comparison
105 0 6 0x060034 8 22 170 14 15 = 305 105 ; a comparison as an integer
105 0 5 0x050034 8 22 168 14 = 305 105 ; not of an integer
105 0 9 0x03002e 9 22 0x060034 9 23 128 22 14 = 305 108 ; a vector and a number
105 0 12 0x020014 22 0x030029 22 23 0x070034 8 24 169 23 14 15 = 0 0 ; a choice of numbers
; a choice of structs
105 0 18 0x020014 22 0x030029 22 23 0x03001e 24 8 0x03002e 24 25 0x070034 24 26 169 23 25 25 = 305 116
105 0 12 0x03001e 22 8 0x03002e 22 23 0x060034 8 24 81 23 0 = 0 0 ; a member
105 0 12 0x03001e 22 8 0x03002e 22 23 0x060034 8 24 81 23 1 = 305 111 ; a member past the last
105 0 11 0x03001e 22 8 0x03002e 22 23 0x050034 8 24 81 23 = 305 111 ; no member
105 0 10 0x03002e 9 22 0x070034 9 23 82 14 22 2 = 0 0 ; a component put in
105 0 10 0x03002e 9 22 0x070034 9 23 82 14 22 3 = 305 108 ; a component past the last
105 0 12 0x03002e 9 22 0x090034 9 23 79 22 22 0 5 0xffffffff = 0 0 ; a shuffle
105 0 12 0x03002e 9 22 0x090034 9 23 79 22 22 0 6 1 = 305 108 ; a component past both vectors
105 0 11 0x03002e 9 22 0x080034 9 23 79 22 22 0 5 = 305 108 ; too few components
; ---- decorations and global variables
31 1 1 4 = 306 30 ; BuiltIn of a struct
54 0 3 0x030047 3 2 = 306 54 ; Block of a variable
54 0 4 0x040047 2 34 0 = 306 54 ; DescriptorSet of an input
54 0 4 0x040047 4 33 0 = 306 54 ; Binding of a struct
54 0 4 0x040047 4 6 4 = 306 54 ; ArrayStride of a struct
54 0 4 0x040047 14 1 0 = 306 54 ; SpecId of a constant
54 0 3 0x030047 4 24 = 306 54 ; NonWritable of a struct
54 0 4 0x040047 4 35 0 = 306 54 ; Offset of a struct
54 0 3 0x030047 3 24 = 0 0 ; NonWritable of a variable
54 0 4 0x040048 4 0 24 = 0 0 ; NonWritable of a member
54 0 5 0x050048 4 0 11 28 = 306 54 ; BuiltIn of a member
54 0 4 0x040048 5 0 24 = 306 54 ; a member of an array
47 1 1 1 = 306 45 ; a member past the last
54 0 4 0x040047 2 11 28 = 306 54 ; BuiltIn twice
54 0 4 0x040047 3 33 1 = 306 54 ; Binding twice
54 0 4 0x040047 3 34 0 = 306 54 ; DescriptorSet twice
54 0 4 0x040047 5 6 4 = 306 54 ; ArrayStride twice
54 0 5 0x050048 4 0 35 0 = 306 54 ; Offset twice
54 0 3 0x030047 4 2 = 0 0 ; Block twice
54 0 8 0x040047 22 1 7 0x040047 22 1 8 105 0 4 0x040032 8 22 1 = 306 58 ; SpecId twice on one constant
54 0 8 0x040047 22 1 7 0x040047 23 1 7 105 0 8 0x040032 8 22 1 0x040032 8 23 2 = 306 58 ; a SpecId on two constants
54 0 8 0x040047 22 1 7 0x040047 23 1 8 105 0 8 0x040032 8 22 1 0x040032 8 23 2 = 0 0 ; two of SpecId
54 0 8 0x040047 22 11 25 0x040047 23 11 25 105 0 6 0x03002e 9 22 0x03002e 9 23 = 306 58 ; WorkgroupSize twice
54 0 4 0x040047 22 11 25 105 0 3 0x03002e 9 22 = 0 0 ; WorkgroupSize
54 0 4 0x040047 14 11 25 = 306 54 ; WorkgroupSize of a number
54 0 4 0x040047 3 11 25 = 306 54 ; WorkgroupSize of a variable
53 1 1 6 = 307 101 ; a stride of 6
53 1 1 0 = 307 101 ; a stride of 0
53 1 1 8 = 0 0 ; a stride of 8
49 1 1 2 = 307 101 ; an offset of 2
49 1 1 4 = 0 0 ; an offset of 4
45 5 0 = 307 96 ; no offset
50 4 0 = 307 97 ; no stride
; a boolean in a buffer
54 0 8 0x030047 23 2 0x050048 23 0 35 0 105 0 13 0x020014 22 0x03001e 23 22 0x040020 24 2 23 0x04003b 24 25 2 = 307 122
105 0 13 0x020014 22 0x03001e 23 22 0x040020 24 6 23 0x04003b 24 25 6 = 0 0 ; a boolean in a private variable
; no stride in a block
54 0 8 0x030047 23 2 0x050048 23 0 35 0 105 0 15 0x04001c 22 8 15 0x03001e 23 22 0x040020 24 9 23 0x04003b 24 25 9 = 307 124
; a stride in a block
54 0 12 0x040047 22 6 4 0x030047 23 2 0x050048 23 0 35 0 105 0 15 0x04001c 22 8 15 0x03001e 23 22 0x040020 24 9 23 0x04003b 24 25 9 = 0 0
; no stride in an array of arrays
54 0 12 0x040047 23 6 8 0x030047 24 2 0x050048 24 0 35 0 105 0 19 0x04001c 22 8 15 0x04001c 23 22 15 0x03001e 24 23 0x040020 25 12 24 0x04003b 25 26 12 = 307 132
; no offset in a struct of a struct
54 0 8 0x030047 23 2 0x050048 23 0 35 0 105 0 14 0x03001e 22 8 0x03001e 23 22 0x040020 24 2 23 0x04003b 24 25 2 = 307 123
42 3 0 = 308 98 ; no Block
105 0 8 0x040020 22 7 8 0x04003b 22 23 7 = 308 109 ; a variable of a function
104 1 1 2 = 308 101 ; another storage class than the pointer has
105 0 4 0x04003b 8 22 6 = 308 105 ; a variable that is no pointer
30 4 0 = 308 93 ; an input that is no built-in
33 1 1 29 = 308 97 ; LocalInvocationIndex as a vector
54 0 4 0x040047 22 11 29 105 0 4 0x04003b 13 22 1 = 0 0 ; LocalInvocationIndex
54 0 4 0x040047 22 11 28 105 0 4 0x04003b 13 22 1 = 308 109 ; GlobalInvocationId as a number
; GlobalInvocationId as a vector of two
54 0 4 0x040047 24 11 28 105 0 12 0x040017 22 8 2 0x040020 23 1 22 0x04003b 23 24 1 = 308 117
105 0 4 0x04003b 12 22 12 = 308 105 ; a buffer that is no struct
105 0 8 0x040020 22 4 4 0x04003b 22 23 4 = 308 109 ; a runtime array of a workgroup
105 0 8 0x040020 22 6 5 0x04003b 22 23 6 = 308 109 ; a private runtime array
105 0 8 0x040020 22 2 4 0x04003b 22 23 2 = 308 109 ; a runtime array of a uniform block
105 0 9 0x040020 22 4 8 0x05003b 22 23 4 14 = 308 109 ; an initial value of a workgroup
105 0 9 0x040020 22 6 8 0x05003b 22 23 6 14 = 0 0 ; an initial value of a private variable
105 0 12 0x040020 22 6 8 0x03002e 9 23 0x05003b 22 24 6 23 = 308 112 ; an initial value of another type
105 0 9 0x040020 22 6 8 0x05003b 22 23 6 2 = 308 109 ; an initial value that is a variable
; ---- functions
139 1 0 = 401 139 ; no terminator
140 0 3 0x0200f8 22 0x0100fd = 402 140 ; a second label, which nothing branches to
139 1 2 0x0200f9 16 = 402 139 ; a branch to the first block
131 1 1 0x0500f5 = 406 131 ; OpPhi in the first block
139 1 2 0x0200fe 21 140 0 3 0x0200f8 22 0x0100fd = 402 141 ; the same behind OpReturnValue, which is looked at later
134 1 1 2 = 501 131 ; a product of a pointer
137 1 1 17 = 504 136 ; a store to an input
131 1 1 0x050039 = 506 131 ; a call of a number
139 1 2 0x0200fe 21 = 507 139 ; OpReturnValue
131 1 1 0x0500f5 138 1 1 22 = 302 136 ; OpPhi before an id that nothing defines
131 1 1 0x050080 = 0 0 ; a sum
139 1 1 0x0100ff = 0 0 ; OpUnreachable
139 0 1 0x01013d = 0 0 ; OpNoLine
141 0 9 0x050036 6 22 0 7 0x0200f8 23 0x0100fd 0x010038 = 0 0 ; a second function
; ---- entry points and bindings, which are looked at last
10 7 6 0x06000f 5 1 0x6e69616d 0 2 = 602 10 ; a buffer that the entry point does not list
10 7 6 0x06000f 5 1 0x6e69616d 0 2 139 1 2 0x0200fe 21 = 507 138 ; the same, and OpReturnValue
38 4 0 = 603 97 ; no binding
20 1 1 0 = 605 10 ; a size of 0
105 36 4 0x04002b 8 1 0 = 606 10 ; no function
= 0 0 ; the shader
; ---- bytes, instructions and layout
= 1 0 0 ; nothing
= 2 0 21 ; a word and an octet
0 5 5 0 0 0 0 0 = 3 0 20 ; zeros
= 202 5 20 ; a header
= 105 136 552 ; an instruction cut in two
= 205 140 560 ; a function without its end
5 5 5 0x03000e 0 1 0x020011 1 = 201 8 ; OpMemoryModel before OpCapability
5 5 5 0x03000e 0 1 0x020011 1 131 1 1 0x05ffff = 106 131 ; the same, and an instruction of no such opcode
";

#[test]
fn rules_are_told(rt: HostRuntime) -> Result<(), Fail> {
    let wrong = first_wrong(rt.alloc(), RULES)?;
    assert!(rt; wrong.is_none(), "{wrong:?}");
    Ok(())
}

/// Whether the words of a module are written so.
fn is_written(alloc: Global, words: &[u32], expected: &[u32]) -> Result<bool, Fail> {
    let input = encoded(alloc, words, false)?;
    let mut memory = with_input(alloc, 1000, input.as_slice())?;
    let output = encoded(alloc, expected, false)?;
    Ok(ends(alloc, &mut memory, 0, "")? && memory.written() == output.as_slice())
}

/// Edits that make a selection, whose merge block %24 stands first. Its arm %25 leads to %26, which is joined with it and
/// has a name.
const SELECTION: &str = "
30 0 3 0x030005 26 0x61 105 0 5 0x020014 22 0x030029 22 23 139 1 18 0x0300f7 24 0 0x0400fa 23 25 24
0x0200f8 24 0x0100fd 0x0200f8 26 0x0200f9 24 0x0200f8 25 0x0200f9 26
";

/// Edits that make what is written of it: it is in order, without the names, the source and %26, under the bound 26.
const IN_ORDER: &str = "
3 1 1 26 23 7 0 105 0 5 0x020014 22 0x030029 22 23 139 1 14 0x0300f7 24 0 0x0400fa 23 25 24 0x0200f8
25 0x0200f9 24 0x0200f8 24 0x0100fd
";

/// The shader with the edits of a text.
fn edited_as_told(alloc: Global, edits: &str) -> Result<Vec<u32>, Fail> {
    let edits = numbers(alloc, edits)?;
    edited(alloc, edits.as_slice())
}

/// Whether the shader with some edits is written as the shader with others.
fn becomes(alloc: Global, from: &str, to: &str) -> Result<bool, Fail> {
    let words = edited_as_told(alloc, from)?;
    let expected = edited_as_told(alloc, to)?;
    is_written(alloc, words.as_slice(), expected.as_slice())
}

#[test]
fn control_flow_is_written_in_its_normal_form(rt: HostRuntime) -> Result<(), Fail> {
    assert!(rt; becomes(rt.alloc(), SELECTION, IN_ORDER)?);
    // It is written again as it is.
    assert!(rt; becomes(rt.alloc(), IN_ORDER, IN_ORDER)?);
    Ok(())
}

/// Edits that put so many selections into each other before the shader returns.
fn selections(alloc: Global, depth: u32) -> Result<Vec<u32>, Fail> {
    let count = depth.saturating_mul(13).saturating_add(1);
    let mut edits = Vec::new(alloc);
    edits.extend_from_slice(&[105, 0, 5, 0x020014, 22, 0x030029, 22, 23, 139, 1, count])?;
    let mut merge: u32 = 0x40;
    'openings: for _ in 0..depth {
        let arm = merge.saturating_add(1);
        edits.extend_from_slice(&[0x0300f7, merge, 0, 0x0400fa, 23, arm, merge, 0x0200f8, arm])?;
        merge = merge.saturating_add(2);
    }
    'endings: for _ in 0..depth {
        merge = merge.saturating_sub(2);
        edits.extend_from_slice(&[0x0200f9, merge, 0x0200f8, merge])?;
    }
    edits.push(0x0100fd)?;
    Ok(edits)
}

/// Whether words end with this status and message.
fn words_end(alloc: Global, words: &[u32], number: u8, message: &str) -> Result<bool, Fail> {
    let input = encoded(alloc, words, false)?;
    let mut memory = with_input(alloc, 1000, input.as_slice())?;
    ends(alloc, &mut memory, number, message)
}

/// Whether the shader with so many selections in each other ends so.
fn selections_end(alloc: Global, depth: u32, number: u8, message: &str) -> Result<bool, Fail> {
    let edits = selections(alloc, depth)?;
    let words = edited(alloc, edits.as_slice())?;
    words_end(alloc, words.as_slice(), number, message)
}

#[test]
fn constructs_nest_255_deep(rt: HostRuntime) -> Result<(), Fail> {
    assert!(rt; selections_end(rt.alloc(), 255, 0, "")?);
    assert!(rt; selections_end(rt.alloc(), 256, 5, "error: limit 901\n")?);
    Ok(())
}

/// Whether the shader with so many structs in each other ends so.
fn structs_end(alloc: Global, structs: u32, rule: u32, at: u32) -> Result<bool, Fail> {
    let edits = nested(alloc, structs)?;
    edits_are_told(alloc, edits.as_slice(), None, rule, at)
}

#[test]
fn types_nest_255_deep(rt: HostRuntime) -> Result<(), Fail> {
    assert!(rt; structs_end(rt.alloc(), 254, 0, 0)?);
    assert!(rt; structs_end(rt.alloc(), 255, 309, 867)?);
    Ok(())
}

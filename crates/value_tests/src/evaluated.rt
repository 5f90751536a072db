// Calls of the evaluation, with what they ask for.
ghost use Rattle.std.specs.Prelude.{◌≡◌, ℕ, ◌≤◌, ◌<◌, List, [], ◌∷◌, length, ◌⊎◌};
ghost use Rattle.spv_value.specs.Words.{words_of, operands};
ghost use Rattle.spv_value.specs.Eval.{AreAlike, AreBooleans, AreFields, IsBooleanVector, IsChoice, AreBooleanWords, CanEval, CanExtEval};

use spv_opcodes::op;
use spv_value::{Answered, Operand, eval, ext_eval};
use std::alloc::Global;
use std::test::Fail;
use test_texts::numbers;

pub const EDGES: [u32; 5] = [0, 1, 0x7FFF_FFFF, 0x8000_0000, 0xFFFF_FFFF];

pub const AMOUNTS: [u32; 5] = [0, 1, 31, 32, 0xFFFF_FFFF];

#[tactic(auto, unfolding(spv_value::specs::Words::words_of))]
pub fn scalar(word: u32) -> Operand
    ensures { words_of result ≡ word ∷ [] }
{
    Operand {
        len: 1,
        w0: word,
        w1: 0,
        w2: 0,
        w3: 0,
    }
}

#[tactic(auto, unfolding(spv_value::specs::Words::words_of))]
pub fn vec2(a: u32, b: u32) -> Operand
    ensures { words_of result ≡ a ∷ b ∷ [] }
{
    Operand {
        len: 2,
        w0: a,
        w1: b,
        w2: 0,
        w3: 0,
    }
}

// The word past `len` does not count.
#[tactic(auto, unfolding(spv_value::specs::Words::words_of))]
pub fn vec3(a: u32, b: u32, c: u32) -> Operand
    ensures { words_of result ≡ a ∷ b ∷ c ∷ [] }
{
    Operand {
        len: 3,
        w0: a,
        w1: b,
        w2: c,
        w3: 77,
    }
}

#[tactic(auto, unfolding(spv_value::specs::Words::words_of))]
pub fn vec4(a: u32, b: u32, c: u32, d: u32) -> Operand
    ensures { words_of result ≡ a ∷ b ∷ c ∷ d ∷ [] }
{
    Operand {
        len: 4,
        w0: a,
        w1: b,
        w2: c,
        w3: d,
    }
}

// The answer of up to eight words.
fn answer(words: &[u32]) -> Answered
    requires { length words.now ≤ 8 }
{
    let word = |k: usize| -> u32 { words.get(k).copied().unwrap_or(0) };
    Answered {
        len: words.len() as u8,
        w0: word(0),
        w1: word(1),
        w2: word(2),
        w3: word(3),
        w4: word(4),
        w5: word(5),
        w6: word(6),
        w7: word(7),
    }
}

pub fn one(opcode: u16, a: &Operand) -> Answered
    requires opcode { (xs : List (List ℕ)) → AreAlike 1 xs → CanEval 32 opcode xs }
    requires some { 1 ≤ length (words_of a.now) }
    requires few { length (words_of a.now) ≤ 4 }
{
    eval(opcode, &[*a])
}

pub fn two(opcode: u16, a: &Operand, b: &Operand) -> Answered
    requires opcode { (xs : List (List ℕ)) → AreAlike 2 xs → CanEval 32 opcode xs }
    requires some { 1 ≤ length (words_of a.now) }
    requires few { length (words_of a.now) ≤ 4 }
    requires alike { length (words_of b.now) ≡ length (words_of a.now) }
{
    eval(opcode, &[*a, *b])
}

pub fn field(opcode: u16, base: &Operand, offset: u32, count: u32) -> Answered
    requires opcode { (xs : List (List ℕ)) → AreFields 1 xs → CanEval 32 opcode xs }
    requires some { 1 ≤ length (words_of base.now) }
    requires few { length (words_of base.now) ≤ 4 }
{
    eval(opcode, &[*base, scalar(offset), scalar(count)])
}

#[tactic(auto, unfolding(spv_value::specs::Eval::CanEval, spv_value::specs::Eval::op_rules))]
pub fn insert(base: &Operand, bits: &Operand, offset: u32, count: u32) -> Answered
    requires some { 1 ≤ length (words_of base.now) }
    requires few { length (words_of base.now) ≤ 4 }
    requires alike { length (words_of bits.now) ≡ length (words_of base.now) }
{
    eval(
        op::BIT_FIELD_INSERT,
        &[*base, *bits, scalar(offset), scalar(count)],
    )
}

pub fn ext_one(number: u32, a: &Operand) -> Answered
    requires number { (xs : List (List ℕ)) → AreAlike 1 xs → CanExtEval 32 number xs }
    requires some { 1 ≤ length (words_of a.now) }
    requires few { length (words_of a.now) ≤ 4 }
{
    ext_eval(number, &[*a])
}

pub fn ext_two(number: u32, a: &Operand, b: &Operand) -> Answered
    requires number { (xs : List (List ℕ)) → AreAlike 2 xs → CanExtEval 32 number xs }
    requires some { 1 ≤ length (words_of a.now) }
    requires few { length (words_of a.now) ≤ 4 }
    requires alike { length (words_of b.now) ≡ length (words_of a.now) }
{
    ext_eval(number, &[*a, *b])
}

pub fn clamp(number: u32, a: &Operand, low: &Operand, high: &Operand) -> Answered
    requires number { (xs : List (List ℕ)) → AreAlike 3 xs → CanExtEval 32 number xs }
    requires some { 1 ≤ length (words_of a.now) }
    requires few { length (words_of a.now) ≤ 4 }
    requires low { length (words_of low.now) ≡ length (words_of a.now) }
    requires high { length (words_of high.now) ≡ length (words_of a.now) }
{
    ext_eval(number, &[*a, *low, *high])
}

// Whether an answer is this, of up to eight words.
pub fn is(got: Answered, wanted: &[u32]) -> Result<(), Fail>
    requires { length wanted.now ≤ 8 }
{
    if got != answer(wanted) {
        return Err(Fail::new(format_args!("{got:?} and not {wanted:?}")));
    }
    Ok(())
}

// The opcode at a word, with each of the right ones.
fn table_row(opcode: u16, a: u32, right: &[u32], wanted: &[u32]) -> Result<(), Fail>
    requires { (xs : List (List ℕ)) → AreAlike 2 xs → CanEval 32 opcode xs }
{
    for (b, word) in right.iter().zip(wanted) {
        if two(opcode, &scalar(a), &scalar(*b)) != answer(&[*word]) {
            return Err(Fail::new(format_args!("{opcode} of {a} and {b}")));
        }
    }
    Ok(())
}

fn table_rows(opcode: u16, right: &[u32], wanted: &[u32]) -> Result<(), Fail>
    requires { (xs : List (List ℕ)) → AreAlike 2 xs → CanEval 32 opcode xs }
{
    if wanted.len() != 25 {
        return Err(Fail::from("25 words"));
    }
    for (a, row) in EDGES.iter().zip(wanted.chunks(5)) {
        table_row(opcode, *a, right, row)?;
    }
    Ok(())
}

// The opcode at each of the left words, with each of the right ones.
pub fn table(alloc: Global, opcode: u16, right: &[u32; 5], wanted: &str) -> Result<(), Fail>
    requires { (xs : List (List ℕ)) → AreAlike 2 xs → CanEval 32 opcode xs }
{
    let wanted = numbers(alloc, wanted)?;
    table_rows(opcode, right.as_slice(), &wanted)
}

fn ext_table_row(number: u32, a: u32, wanted: &[u32]) -> Result<(), Fail>
    requires { (xs : List (List ℕ)) → AreAlike 2 xs → CanExtEval 32 number xs }
{
    for (b, word) in EDGES.iter().zip(wanted) {
        if ext_two(number, &scalar(a), &scalar(*b)) != answer(&[*word]) {
            return Err(Fail::new(format_args!("{number} of {a} and {b}")));
        }
    }
    Ok(())
}

fn ext_table_rows(number: u32, wanted: &[u32]) -> Result<(), Fail>
    requires { (xs : List (List ℕ)) → AreAlike 2 xs → CanExtEval 32 number xs }
{
    if wanted.len() != 25 {
        return Err(Fail::from("25 words"));
    }
    for (a, row) in EDGES.iter().zip(wanted.chunks(5)) {
        ext_table_row(number, *a, row)?;
    }
    Ok(())
}

pub fn ext_table(alloc: Global, number: u32, wanted: &str) -> Result<(), Fail>
    requires { (xs : List (List ℕ)) → AreAlike 2 xs → CanExtEval 32 number xs }
{
    let wanted = numbers(alloc, wanted)?;
    ext_table_rows(number, &wanted)
}

fn pair_row(opcode: u16, a: u32, lows: &[u32], highs: &[u32]) -> Result<(), Fail>
    requires { (xs : List (List ℕ)) → AreAlike 2 xs → CanEval 32 opcode xs }
{
    for (b, (low, high)) in EDGES.iter().zip(lows.iter().zip(highs)) {
        if two(opcode, &scalar(a), &scalar(*b)) != answer(&[*low, *high]) {
            return Err(Fail::new(format_args!("{opcode} of {a} and {b}")));
        }
    }
    Ok(())
}

fn pair_rows(opcode: u16, low: &[u32], high: &[u32]) -> Result<(), Fail>
    requires { (xs : List (List ℕ)) → AreAlike 2 xs → CanEval 32 opcode xs }
{
    if low.len() != 25 || high.len() != 25 {
        return Err(Fail::from("25 words"));
    }
    for (a, (lows, highs)) in EDGES.iter().zip(low.chunks(5).zip(high.chunks(5))) {
        pair_row(opcode, *a, lows, highs)?;
    }
    Ok(())
}

// The opcodes with two results: the low words, then the high ones.
pub fn pair_table(alloc: Global, opcode: u16, low: &str, high: &str) -> Result<(), Fail>
    requires { (xs : List (List ℕ)) → AreAlike 2 xs → CanEval 32 opcode xs }
{
    let low = numbers(alloc, low)?;
    let high = numbers(alloc, high)?;
    pair_rows(opcode, &low, &high)
}

pub fn row(opcode: u16, wanted: &[u32; 5]) -> Result<(), Fail>
    requires { (xs : List (List ℕ)) → AreAlike 1 xs → CanEval 32 opcode xs }
{
    for (a, word) in EDGES.iter().zip(wanted) {
        if one(opcode, &scalar(*a)) != answer(&[*word]) {
            return Err(Fail::new(format_args!("{opcode} of {a}")));
        }
    }
    Ok(())
}

pub fn ext_row(number: u32, wanted: &[u32; 5]) -> Result<(), Fail>
    requires { (xs : List (List ℕ)) → AreAlike 1 xs → CanExtEval 32 number xs }
{
    for (a, word) in EDGES.iter().zip(wanted) {
        if ext_one(number, &scalar(*a)) != answer(&[*word]) {
            return Err(Fail::new(format_args!("{number} of {a}")));
        }
    }
    Ok(())
}

fn fields_are(opcode: u16, rows: &[u32]) -> Result<(), Fail>
    requires { (xs : List (List ℕ)) → AreFields 1 xs → CanEval 32 opcode xs }
{
    for row in rows.chunks(4) {
        let [base, offset, count, word] = row else {
            return Err(Fail::from("four words"));
        };
        if field(opcode, &scalar(*base), *offset, *count) != answer(&[*word]) {
            return Err(Fail::new(format_args!("{opcode} of {row:?}")));
        }
    }
    Ok(())
}

// Base, offset, count and the wanted word.
pub fn field_rows(alloc: Global, opcode: u16, rows: &str) -> Result<(), Fail>
    requires { (xs : List (List ℕ)) → AreFields 1 xs → CanEval 32 opcode xs }
{
    let rows = numbers(alloc, rows)?;
    fields_are(opcode, &rows)
}

fn inserts_are(rows: &[u32]) -> Result<(), Fail> {
    for row in rows.chunks(5) {
        let [base, bits, offset, count, word] = row else {
            return Err(Fail::from("five words"));
        };
        if insert(&scalar(*base), &scalar(*bits), *offset, *count) != answer(&[*word]) {
            return Err(Fail::new(format_args!("an insertion of {row:?}")));
        }
    }
    Ok(())
}

// Base, the bits that are put in, offset, count and the wanted word.
pub fn insert_rows(alloc: Global, rows: &str) -> Result<(), Fail> {
    let rows = numbers(alloc, rows)?;
    inserts_are(&rows)
}

pub const FALSE: Operand = Operand {
    len: 1,
    w0: 0,
    w1: 0,
    w2: 0,
    w3: 0,
};

pub const TRUE: Operand = Operand {
    len: 1,
    w0: 1,
    w1: 0,
    w2: 0,
    w3: 0,
};

#[tactic(auto, unfolding(spv_value::specs::Eval::CanEval, spv_value::specs::Eval::op_rules))]
pub fn not(a: &Operand) -> Answered
    requires some { 1 ≤ length (words_of a.now) }
    requires few { length (words_of a.now) ≤ 4 }
    requires booleans { AreBooleanWords (words_of a.now) }
{
    eval(op::LOGICAL_NOT, &[*a])
}

pub fn logic(opcode: u16, a: &Operand, b: &Operand) -> Answered
    requires opcode { (xs : List (List ℕ)) → AreBooleans 2 xs → CanEval 32 opcode xs }
    requires some { 1 ≤ length (words_of a.now) }
    requires few { length (words_of a.now) ≤ 4 }
    requires alike { length (words_of b.now) ≡ length (words_of a.now) }
    requires left { AreBooleanWords (words_of a.now) }
    requires right { AreBooleanWords (words_of b.now) }
{
    eval(opcode, &[*a, *b])
}

pub fn of_vector(opcode: u16, a: &Operand) -> Answered
    requires opcode { (xs : List (List ℕ)) → IsBooleanVector xs → CanEval 32 opcode xs }
    requires some { 2 ≤ length (words_of a.now) }
    requires few { length (words_of a.now) ≤ 4 }
    requires booleans { AreBooleanWords (words_of a.now) }
{
    eval(opcode, &[*a])
}

#[tactic(auto, unfolding(spv_value::specs::Eval::CanEval, spv_value::specs::Eval::op_rules))]
pub fn select(condition: &Operand, a: &Operand, b: &Operand) -> Answered
    requires some { 1 ≤ length (words_of a.now) }
    requires few { length (words_of a.now) ≤ 4 }
    requires alike { length (words_of b.now) ≡ length (words_of a.now) }
    requires condition { (length (words_of condition.now) ≡ 1) ⊎ (length (words_of condition.now) ≡ length (words_of a.now)) }
    requires booleans { AreBooleanWords (words_of condition.now) }
{
    eval(op::SELECT, &[*condition, *a, *b])
}

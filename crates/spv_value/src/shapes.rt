// From a function of components to a result: a function here for each form of operands.
ghost use Rattle.std.specs.Prelude.{◌≡◌, ℕ, ◌+◌, ◌≤◌, [], ◌∷◌, ◌++◌, length, map};
ghost use Rattle.std.specs.List.{list_any, list_all};
ghost use Rattle.spv_value.specs.Words.{words_of, operands, answered};
ghost use Rattle.spv_value.specs.Bits.{zip_with};
ghost use Rattle.spv_value.specs.Compare.{is_one, any_of, all_of};
ghost use Rattle.spv_value.specs.Eval.{AreAlike, AreFields, IsBooleanVector, IsChoice, operand, scalar, zip_with3, choice};

use crate::compare;
use crate::words::{Answered, Operand};

// An answer of no words.
const EMPTY: Answered = Answered {
    len: 0,
    w0: 0,
    w1: 0,
    w2: 0,
    w3: 0,
    w4: 0,
    w5: 0,
    w6: 0,
    w7: 0,
};

// f of each component. It is also taken of the words past `len`, which do not count.
fn each<F: Fn(u32) -> u32 + Drop>(a: &Operand, f: F) -> Operand
    requires callable { F.IsAlwaysCallable f }
    requires few { length (words_of a.now) ≤ 4 }
    ensures len { length (words_of result) ≡ length (words_of a.now) }
    ensures words { (g : ℕ → ℕ) → ((x r : ℕ) → F.post f x r → r ≡ g x) → words_of result ≡ map g (words_of a.now) }
{
    Operand {
        len: a.len,
        w0: f(a.w0),
        w1: f(a.w1),
        w2: f(a.w2),
        w3: f(a.w3),
    }
}

fn each2<F: Fn(u32, u32) -> u32 + Drop>(a: &Operand, b: &Operand, f: &F) -> Operand
    requires callable { F.IsAlwaysCallable f.now }
    requires few { length (words_of a.now) ≤ 4 }
    requires alike { length (words_of b.now) ≡ length (words_of a.now) }
    ensures len { length (words_of result) ≡ length (words_of a.now) }
    ensures words { (g : ℕ → ℕ → ℕ) → ((x y r : ℕ) → F.post f.now x y r → r ≡ g x y) → words_of result ≡ zip_with g (words_of a.now) (words_of b.now) }
{
    Operand {
        len: a.len,
        w0: f(a.w0, b.w0),
        w1: f(a.w1, b.w1),
        w2: f(a.w2, b.w2),
        w3: f(a.w3, b.w3),
    }
}

fn each3<F: Fn(u32, u32, u32) -> u32 + Drop>(a: &Operand, b: &Operand, c: &Operand, f: F) -> Operand
    requires callable { F.IsAlwaysCallable f }
    requires few { length (words_of a.now) ≤ 4 }
    requires second { length (words_of b.now) ≡ length (words_of a.now) }
    requires third { length (words_of c.now) ≡ length (words_of a.now) }
    ensures len { length (words_of result) ≡ length (words_of a.now) }
    ensures words { (g : ℕ → ℕ → ℕ → ℕ) → ((x y z r : ℕ) → F.post f x y z r → r ≡ g x y z) → words_of result ≡ zip_with3 g (words_of a.now) (words_of b.now) (words_of c.now) }
{
    Operand {
        len: a.len,
        w0: f(a.w0, b.w0, c.w0),
        w1: f(a.w1, b.w1, c.w1),
        w2: f(a.w2, b.w2, c.w2),
        w3: f(a.w3, b.w3, c.w3),
    }
}

fn single(a: Operand) -> Answered
    requires some { 1 ≤ length (words_of a) }
    requires few { length (words_of a) ≤ 4 }
    ensures { result ≡ answered (words_of a) }
{
    let Operand {
        len,
        w0,
        w1,
        w2,
        w3,
    } = a;
    match len {
        1 => Answered {
            len: 1,
            w0,
            ..EMPTY
        },
        2 => Answered {
            len: 2,
            w0,
            w1,
            ..EMPTY
        },
        3 => Answered {
            len: 3,
            w0,
            w1,
            w2,
            ..EMPTY
        },
        4 => Answered {
            len: 4,
            w0,
            w1,
            w2,
            w3,
            ..EMPTY
        },
        _ => unreachable!(),
    }
}

fn double(low: Operand, high: Operand) -> Answered
    requires some { 1 ≤ length (words_of low) }
    requires few { length (words_of low) ≤ 4 }
    requires alike { length (words_of high) ≡ length (words_of low) }
    ensures { result ≡ answered (words_of low ++ words_of high) }
{
    match low.len {
        1 => Answered {
            len: 2,
            w0: low.w0,
            w1: high.w0,
            ..EMPTY
        },
        2 => Answered {
            len: 4,
            w0: low.w0,
            w1: low.w1,
            w2: high.w0,
            w3: high.w1,
            ..EMPTY
        },
        3 => Answered {
            len: 6,
            w0: low.w0,
            w1: low.w1,
            w2: low.w2,
            w3: high.w0,
            w4: high.w1,
            w5: high.w2,
            ..EMPTY
        },
        4 => Answered {
            len: 8,
            w0: low.w0,
            w1: low.w1,
            w2: low.w2,
            w3: low.w3,
            w4: high.w0,
            w5: high.w1,
            w6: high.w2,
            w7: high.w3,
        },
        _ => unreachable!(),
    }
}

pub fn ints1<F: Fn(u32) -> u32 + Drop>(input: &[Operand], f: F) -> Answered
    requires callable { F.IsAlwaysCallable f }
    requires vectors { AreAlike 1 (operands input.now) }
    ensures { (g : ℕ → ℕ) → ((x r : ℕ) → F.post f x r → r ≡ g x) → result ≡ answered (map g (operand (operands input.now) 0)) }
{
    let [a] = input else { unreachable!() };
    single(each(a, f))
}

pub fn ints2<F: Fn(u32, u32) -> u32 + Drop>(input: &[Operand], f: F) -> Answered
    requires callable { F.IsAlwaysCallable f }
    requires vectors { AreAlike 2 (operands input.now) }
    ensures { (g : ℕ → ℕ → ℕ) → ((x y r : ℕ) → F.post f x y r → r ≡ g x y) → result ≡ answered (zip_with g (operand (operands input.now) 0) (operand (operands input.now) 1)) }
{
    let [a, b] = input else { unreachable!() };
    single(each2(a, b, &f))
}

pub fn ints3<F: Fn(u32, u32, u32) -> u32 + Drop>(input: &[Operand], f: F) -> Answered
    requires callable { F.IsAlwaysCallable f }
    requires vectors { AreAlike 3 (operands input.now) }
    ensures { (g : ℕ → ℕ → ℕ → ℕ) → ((x y z r : ℕ) → F.post f x y z r → r ≡ g x y z) → result ≡ answered (zip_with3 g (operand (operands input.now) 0) (operand (operands input.now) 1) (operand (operands input.now) 2)) }
{
    let [a, b, c] = input else { unreachable!() };
    single(each3(a, b, c, f))
}

// The results of both functions, those of the first in front.
pub fn pair<F: Fn(u32, u32) -> u32 + Drop, G: Fn(u32, u32) -> u32 + Drop>(
    input: &[Operand],
    low: F,
    high: G,
) -> Answered
    requires low { F.IsAlwaysCallable low }
    requires high { G.IsAlwaysCallable high }
    requires vectors { AreAlike 2 (operands input.now) }
    ensures { (f g : ℕ → ℕ → ℕ) → ((x y r : ℕ) → F.post low x y r → r ≡ f x y) → ((x y r : ℕ) → G.post high x y r → r ≡ g x y) → result ≡ answered (zip_with f (operand (operands input.now) 0) (operand (operands input.now) 1) ++ zip_with g (operand (operands input.now) 0) (operand (operands input.now) 1)) }
{
    let [a, b] = input else { unreachable!() };
    double(each2(a, b, &low), each2(a, b, &high))
}

pub fn extract<F: Fn(u32, u32, u32) -> u32 + Drop>(input: &[Operand], f: F) -> Answered
    requires callable { F.IsAlwaysCallable f }
    requires fields { AreFields 1 (operands input.now) }
    ensures { (g : ℕ → ℕ → ℕ → ℕ) → ((x y z r : ℕ) → F.post f x y z r → r ≡ g x y z) → result ≡ answered (map (λ x. g x (scalar (operands input.now) 1) (scalar (operands input.now) 2)) (operand (operands input.now) 0)) }
{
    let [base, offset, count] = input else {
        unreachable!()
    };
    let (offset, count) = (offset.w0, count.w0);
    let taken = |word: u32| -> u32
        requires { F.pre f word offset count }
        ensures { F.post f word offset count result }
    { f(word, offset, count) };
    single(each(base, taken))
}

pub fn insert<F: Fn(u32, u32, u32, u32) -> u32 + Drop>(input: &[Operand], f: F) -> Answered
    requires callable { F.IsAlwaysCallable f }
    requires fields { AreFields 2 (operands input.now) }
    ensures { (g : ℕ → ℕ → ℕ → ℕ → ℕ) → ((x y z v r : ℕ) → F.post f x y z v r → r ≡ g x y z v) → result ≡ answered (zip_with (λ x y. g x y (scalar (operands input.now) 2) (scalar (operands input.now) 3)) (operand (operands input.now) 0) (operand (operands input.now) 1)) }
{
    let [base, field, offset, count] = input else {
        unreachable!()
    };
    let (offset, count) = (offset.w0, count.w0);
    let put = |word: u32, bits: u32| -> u32
        requires { F.pre f word bits offset count }
        ensures { F.post f word bits offset count result }
    { f(word, bits, offset, count) };
    single(each2(base, field, &put))
}

fn has_one(words: &[u32]) -> bool
    ensures { result ≡ list_any is_one words.now }
{
    words.iter().any(|word| *word == 1)
}

fn has_only_ones(words: &[u32]) -> bool
    ensures { result ≡ list_all is_one words.now }
{
    words.iter().all(|word| *word == 1)
}

#[tactic(auto, unfolding(crate::specs::Compare::any_of, crate::specs::Words::answered))]
pub fn any(input: &[Operand]) -> Answered
    requires { IsBooleanVector (operands input.now) }
    ensures { result ≡ answered (any_of (operand (operands input.now) 0) ∷ []) }
{
    let [a] = input else { unreachable!() };
    let words = [a.w0, a.w1, a.w2, a.w3];
    let any = has_one(&words[..usize::from(a.len)]);
    Answered {
        len: 1,
        w0: u32::from(any),
        ..EMPTY
    }
}

#[tactic(auto, unfolding(crate::specs::Compare::all_of, crate::specs::Words::answered))]
pub fn all(input: &[Operand]) -> Answered
    requires { IsBooleanVector (operands input.now) }
    ensures { result ≡ answered (all_of (operand (operands input.now) 0) ∷ []) }
{
    let [a] = input else { unreachable!() };
    let words = [a.w0, a.w1, a.w2, a.w3];
    let all = has_only_ones(&words[..usize::from(a.len)]);
    Answered {
        len: 1,
        w0: u32::from(all),
        ..EMPTY
    }
}

pub fn select(input: &[Operand]) -> Answered
    requires { IsChoice (operands input.now) }
    ensures { result ≡ answered (choice (operand (operands input.now) 0) (operand (operands input.now) 1) (operand (operands input.now) 2)) }
{
    let [condition, first, second] = input else {
        unreachable!()
    };
    if condition.len != 1 {
        return single(each3(condition, first, second, compare::select));
    }
    if condition.w0 == 1 {
        single(*first)
    } else {
        single(*second)
    }
}

// Operations on constants that are scalars and vectors.
ghost use Rattle.std.specs.Prelude.{◌≡◌, ◌+◌, ◌≤◌, ◌++◌, length, map};
ghost use Rattle.spv_value.specs.Words.{words_of, operands};
ghost use Rattle.spv_value.specs.Eval.{CanEval, Eval};
ghost use Rattle.spv_meaning.specs.Computations.{shuffled};

use crate::operands::{component, of_answer, with_component, zeros};
use spv_value::{Operand, eval};

/// The literal of a shuffle that picks no component.
const NO_COMPONENT: u32 = 0xFFFF_FFFF;

/// The result of the instruction `opcode` at constant operands, component by component: whole-number arithmetic
/// modulo 2^32, where division by zero and shifts by 32 or more give 0.
///
/// `opcode` is an instruction that `spv_value` evaluates, with a result of at most four words. Each operation
/// that OpSpecConstantOp may name is one, but for shuffles, extractions and insertions, at operands of its form.
pub fn evaluate(opcode: u16, input: &[Operand]) -> Operand
    requires suited { CanEval 32 opcode (operands input.now) }
    requires few { length (Eval 32 opcode (operands input.now)) ≤ 4 }
    ensures { words_of result ≡ Eval 32 opcode (operands input.now) }
{
    of_answer(eval(opcode, input))
}

// The component that a literal picks of two vectors, one after the other; 0 past their end.
#[tactic(auto, using(crate::proofs::Shuffling::picks_first, crate::proofs::Shuffling::picks_second))]
fn picked(a: &Operand, b: &Operand, literal: u32) -> u32
    ensures { result ≡ shuffled (words_of a.now ++ words_of b.now) literal }
{
    if literal == NO_COMPONENT {
        return 0;
    }
    let index = literal as usize;
    let count = usize::from(a.len);
    if index < count {
        component(a, index)
    } else {
        component(b, index - count)
    }
}

/// The vector of the components that the literals pick of two vectors, one after the other. The literal
/// 0xFFFFFFFF and literals past the end give 0.
pub fn shuffle(a: &Operand, b: &Operand, literals: &[u32]) -> Operand
    requires { length literals.now ≤ 4 }
    ensures { words_of result ≡ map (shuffled (words_of a.now ++ words_of b.now)) literals.now }
{
    let mut result = zeros(literals.len() as u8);
    'literals: for (i, literal) in literals.iter().enumerate() {
        result = with_component(&result, i, picked(a, b, *literal));
    }
    result
}

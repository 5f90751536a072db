// The instructions by opcode and number.
ghost use Rattle.std.specs.Prelude.{◌≡◌};
ghost use Rattle.spv_value.specs.Words.{operands, answered};
ghost use Rattle.spv_value.specs.Eval.{CanEval, CanExtEval, Eval, ExtEval};

use crate::words::{Answered, Operand};
use crate::{arith, bits, compare, ext as glsl, fields, shapes};
use spv_opcodes::{ext, op};

/// The result of the instruction `opcode` at constant operands, component by component, as the machine
/// computes it: whole-number arithmetic modulo 2^32, division by zero and shifts by 32 or more give 0, and
/// a bit field that passes the word gives 0.
///
/// `opcode` is SNegate, Not, BitReverse, BitCount, Bitcast, an integer operation of two operands, one of
/// the four with two results, a bit field instruction, Any, All, a logical instruction, a comparison or
/// Select. Operands of one instruction have one to four words each and as many as each other, except for a
/// bit field's offset and count and for a condition of one word. Two results stand one after the other.
#[tactic(auto, unfolding(crate::specs::Eval::CanEval, crate::specs::Eval::Eval, crate::specs::Eval::op_rules))]
pub fn eval(opcode: u16, input: &[Operand]) -> Answered
    requires { CanEval 32 opcode (operands input.now) }
    ensures { result ≡ answered (Eval 32 opcode (operands input.now)) }
{
    match opcode {
        op::S_NEGATE => shapes::ints1(input, arith::s_negate),
        op::NOT => shapes::ints1(input, bits::bitwise_not),
        op::BIT_REVERSE => shapes::ints1(input, bits::bit_reverse),
        op::BIT_COUNT => shapes::ints1(input, bits::bit_count),
        op::BITCAST => shapes::ints1(input, |word| word),
        op::I_ADD => shapes::ints2(input, arith::i_add),
        op::I_SUB => shapes::ints2(input, arith::i_sub),
        op::I_MUL => shapes::ints2(input, arith::i_mul),
        op::U_DIV => shapes::ints2(input, arith::u_div),
        op::S_DIV => shapes::ints2(input, arith::s_div),
        op::U_MOD => shapes::ints2(input, arith::u_mod),
        op::S_REM => shapes::ints2(input, arith::s_rem),
        op::S_MOD => shapes::ints2(input, arith::s_mod),
        op::SHIFT_RIGHT_LOGICAL => shapes::ints2(input, arith::shift_right_logical),
        op::SHIFT_RIGHT_ARITHMETIC => shapes::ints2(input, arith::shift_right_arithmetic),
        op::SHIFT_LEFT_LOGICAL => shapes::ints2(input, arith::shift_left_logical),
        op::BITWISE_OR => shapes::ints2(input, bits::bitwise_or),
        op::BITWISE_XOR => shapes::ints2(input, bits::bitwise_xor),
        op::BITWISE_AND => shapes::ints2(input, bits::bitwise_and),
        op::I_ADD_CARRY => shapes::pair(input, arith::i_add, arith::carry),
        op::I_SUB_BORROW => shapes::pair(input, arith::i_sub, arith::borrow),
        op::U_MUL_EXTENDED => shapes::pair(input, arith::i_mul, arith::u_mul_high),
        op::S_MUL_EXTENDED => shapes::pair(input, arith::s_mul_low, arith::s_mul_high),
        op::BIT_FIELD_INSERT => shapes::insert(input, fields::bit_field_insert),
        op::BIT_FIELD_S_EXTRACT => shapes::extract(input, fields::bit_field_s_extract),
        op::BIT_FIELD_U_EXTRACT => shapes::extract(input, fields::bit_field_u_extract),
        op::ANY => shapes::any(input),
        op::ALL => shapes::all(input),
        op::LOGICAL_NOT => shapes::ints1(input, compare::logical_not),
        op::LOGICAL_EQUAL => shapes::ints2(input, compare::i_equal),
        op::LOGICAL_NOT_EQUAL => shapes::ints2(input, compare::i_not_equal),
        op::LOGICAL_OR => shapes::ints2(input, compare::logical_or),
        op::LOGICAL_AND => shapes::ints2(input, compare::logical_and),
        op::I_EQUAL => shapes::ints2(input, compare::i_equal),
        op::I_NOT_EQUAL => shapes::ints2(input, compare::i_not_equal),
        op::U_GREATER_THAN => shapes::ints2(input, compare::u_greater_than),
        op::S_GREATER_THAN => shapes::ints2(input, compare::s_greater_than),
        op::U_GREATER_THAN_EQUAL => shapes::ints2(input, compare::u_greater_than_equal),
        op::S_GREATER_THAN_EQUAL => shapes::ints2(input, compare::s_greater_than_equal),
        op::U_LESS_THAN => shapes::ints2(input, compare::u_less_than),
        op::S_LESS_THAN => shapes::ints2(input, compare::s_less_than),
        op::U_LESS_THAN_EQUAL => shapes::ints2(input, compare::u_less_than_equal),
        op::S_LESS_THAN_EQUAL => shapes::ints2(input, compare::s_less_than_equal),
        op::SELECT => shapes::select(input),
        _ => unreachable!(),
    }
}

/// The same for the instruction `number` of `GLSL.std.450`: SAbs, SSign, the minima, maxima and clamps of
/// integers, and the searches for a bit, which give -1 where there is none.
#[tactic(auto, unfolding(crate::specs::Eval::CanExtEval, crate::specs::Eval::ExtEval, crate::specs::Eval::ext_rules))]
pub fn ext_eval(number: u32, input: &[Operand]) -> Answered
    requires { CanExtEval 32 number (operands input.now) }
    ensures { result ≡ answered (ExtEval 32 number (operands input.now)) }
{
    match number {
        ext::S_ABS => shapes::ints1(input, glsl::s_abs),
        ext::S_SIGN => shapes::ints1(input, glsl::s_sign),
        ext::U_MIN => shapes::ints2(input, glsl::u_min),
        ext::S_MIN => shapes::ints2(input, glsl::s_min),
        ext::U_MAX => shapes::ints2(input, glsl::u_max),
        ext::S_MAX => shapes::ints2(input, glsl::s_max),
        ext::U_CLAMP => shapes::ints3(input, glsl::u_clamp),
        ext::S_CLAMP => shapes::ints3(input, glsl::s_clamp),
        ext::FIND_I_LSB => shapes::ints1(input, bits::find_i_lsb),
        ext::FIND_S_MSB => shapes::ints1(input, bits::find_s_msb),
        ext::FIND_U_MSB => shapes::ints1(input, bits::find_u_msb),
        _ => unreachable!(),
    }
}

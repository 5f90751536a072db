ghost use Rattle.std.specs.Prelude.{◌≡◌};
ghost use Rattle.spv_arithmetic.specs.Forms as forms;

use spv_opcodes::op;

/// What an instruction takes and gives. Int(c) is an integer, where c is 1, or a vector of c integers, and
/// Bool(c) likewise; c is how many components the first operand has.
#[derive(Clone, Copy, Debug, PartialEq, Eq)]
pub enum Form {
    /// So many Int(c), and Int(c).
    Ints(usize),
    /// So many Bool(c), and Bool(c).
    Bools(usize),
    /// Two Int(c), and Bool(c).
    Compares,
    /// One Bool(c) with c at least 2, and Bool(1).
    Reduces,
    /// Two Int(c) of one type, and a struct of two members of that type.
    Pairs,
    /// Two Int(c) and two Int(1), and Int(c).
    FieldInserts,
    /// One Int(c) and two Int(1), and Int(c).
    FieldExtracts,
    /// A condition and two values of the result's type, which is any data type.
    Selects,
    /// A set of extended instructions, the number of one and its operands, each Int(c), and Int(c).
    Extended,
    /// A conversion to another width: no result suits it.
    Converts,
    /// Bool(1) and labels, and no result.
    Branches,
    /// Int(1) and labels with literals, and no result.
    Switches,
}

/// What the instructions of an opcode take and give. None where they are none that this crate looks at.
pub fn form_of(opcode: u16) -> Option<Form>
    ensures { result ≡ forms.form_of opcode }
{
    match opcode {
        op::S_NEGATE | op::NOT | op::BIT_REVERSE | op::BIT_COUNT | op::BITCAST => Some(Form::Ints(
            1,
        )),
        op::I_ADD
        | op::I_SUB
        | op::I_MUL
        | op::U_DIV
        | op::S_DIV
        | op::U_MOD
        | op::S_REM
        | op::S_MOD
        | op::SHIFT_RIGHT_LOGICAL
        | op::SHIFT_RIGHT_ARITHMETIC
        | op::SHIFT_LEFT_LOGICAL
        | op::BITWISE_OR
        | op::BITWISE_XOR
        | op::BITWISE_AND => Some(Form::Ints(2)),
        op::LOGICAL_NOT => Some(Form::Bools(1)),
        op::LOGICAL_EQUAL | op::LOGICAL_NOT_EQUAL | op::LOGICAL_OR | op::LOGICAL_AND => {
            Some(Form::Bools(2))
        }
        op::I_EQUAL
        | op::I_NOT_EQUAL
        | op::U_GREATER_THAN
        | op::S_GREATER_THAN
        | op::U_GREATER_THAN_EQUAL
        | op::S_GREATER_THAN_EQUAL
        | op::U_LESS_THAN
        | op::S_LESS_THAN
        | op::U_LESS_THAN_EQUAL
        | op::S_LESS_THAN_EQUAL => Some(Form::Compares),
        op::ANY | op::ALL => Some(Form::Reduces),
        op::I_ADD_CARRY | op::I_SUB_BORROW | op::U_MUL_EXTENDED | op::S_MUL_EXTENDED => {
            Some(Form::Pairs)
        }
        op::BIT_FIELD_INSERT => Some(Form::FieldInserts),
        op::BIT_FIELD_S_EXTRACT | op::BIT_FIELD_U_EXTRACT => Some(Form::FieldExtracts),
        op::SELECT => Some(Form::Selects),
        op::EXT_INST => Some(Form::Extended),
        op::U_CONVERT | op::S_CONVERT => Some(Form::Converts),
        op::BRANCH_CONDITIONAL => Some(Form::Branches),
        op::SWITCH => Some(Form::Switches),
        _ => None,
    }
}

/// The word that the operands begin at, counted from 0.
pub fn first_operand(form: Form) -> usize
    ensures { result ≡ forms.first_operand form }
{
    match form {
        Form::Branches | Form::Switches => 1,
        _ => 3,
    }
}

// Worked values: what the forms say of operands reaches evaluation, and each function once.
ghost use Rattle.std.specs.Prelude.{◌≡◌, ◌≤◌, Some, nat_eq, length};
ghost use Rattle.std.specs.Map.{lookup};
ghost use Rattle.spv_value.specs.Words.{words_of};
ghost use Rattle.spv_typing.specs.Operations.{spec_operations};
ghost use Rattle.spv_typing.specs.declared.operations.Form.TheVariants as forms;

use spv_folding::{component, evaluate, of_word, of_words, shuffle, with_component, zeros};
use spv_opcodes::op;
use spv_value::Operand;

// An operation of two operands of integers.
fn two(opcode: u16, a: &Operand, b: &Operand) -> Operand
    requires form { lookup (nat_eq opcode) spec_operations ≡ Some (forms.Ints 2) }
    requires some { 1 ≤ length (words_of a.now) }
    requires few { length (words_of a.now) ≤ 4 }
    requires alike { length (words_of b.now) ≡ length (words_of a.now) }
{
    evaluate(opcode, &[*a, *b])
}

/// Whether integers are added component by component.
fn is_sum() -> bool {
    let sum = two(
        op::I_ADD,
        &of_words(&[1, 0xFFFF_FFFF, 3]),
        &of_words(&[4, 2, 6]),
    );
    sum == of_words(&[5, 1, 9])
}

/// Whether a quotient by 0 is 0.
fn is_quotient() -> bool {
    two(op::U_DIV, &of_word(7), &of_word(0)) == of_word(0)
}

/// Whether literals pick components.
fn is_picked() -> bool {
    let picked = shuffle(
        &of_words(&[10, 11]),
        &of_words(&[12, 13, 14]),
        &[4, 0xFFFF_FFFF, 0, 2],
    );
    picked == of_words(&[14, 0, 10, 12])
}

/// Whether components are read and set.
fn is_set() -> bool {
    let vector = with_component(&of_words(&[1, 2, 3]), 1, 7);
    vector == of_words(&[1, 7, 3]) && component(&vector, 1) == 7 && component(&vector, 3) == 0
}

#[test]
fn operations_are_computed(rt: HostRuntime) {
    assert!(rt; is_sum() && is_quotient());
    assert!(rt; is_picked());
    assert!(rt; is_set());
    assert!(rt; zeros(2) == of_words(&[0, 0]));
}

// Worked values, vectors, booleans and choices.
use crate::evaluated::{
    FALSE, TRUE, clamp, ext_one, ext_two, field, insert, is, logic, not, of_vector, one, scalar,
    select, two, vec2, vec3, vec4,
};
use spv_opcodes::{ext, op};
use spv_value::Operand;
use std::test::Fail;

#[test]
#[tactic(auto, unfolding(spv_value::specs::Eval::CanEval, spv_value::specs::Eval::op_rules, spv_value::specs::Eval::CanExtEval, spv_value::specs::Eval::ext_rules))]
fn worked_values(_rt: HostRuntime) -> Result<(), Fail> {
    is(
        two(op::S_DIV, &scalar(0x8000_0000), &scalar(0xFFFF_FFFF)),
        &[0x8000_0000],
    )?;
    is(
        two(op::S_REM, &scalar(0x8000_0000), &scalar(0xFFFF_FFFF)),
        &[0],
    )?;
    is(two(op::U_DIV, &scalar(7), &scalar(0)), &[0])?;
    is(
        two(op::S_DIV, &scalar(0xFFFF_FFF9), &scalar(3)),
        &[0xFFFF_FFFE],
    )?;
    is(
        two(op::S_REM, &scalar(0xFFFF_FFF9), &scalar(3)),
        &[0xFFFF_FFFF],
    )?;
    is(two(op::S_MOD, &scalar(0xFFFF_FFF9), &scalar(3)), &[2])?;
    is(two(op::SHIFT_LEFT_LOGICAL, &scalar(1), &scalar(32)), &[0])?;
    is(
        two(
            op::SHIFT_RIGHT_ARITHMETIC,
            &scalar(0x8000_0000),
            &scalar(32),
        ),
        &[0],
    )?;
    is(
        field(op::BIT_FIELD_U_EXTRACT, &scalar(0x0000_00F0), 4, 4),
        &[15],
    )?;
    is(
        field(op::BIT_FIELD_U_EXTRACT, &scalar(0x0000_00F0), 30, 4),
        &[0],
    )?;
    is(one(op::BIT_REVERSE, &scalar(1)), &[0x8000_0000])?;
    is(one(op::BIT_COUNT, &scalar(0x0000_00FF)), &[8])?;
    is(
        two(op::U_MUL_EXTENDED, &scalar(0xFFFF_FFFF), &scalar(2)),
        &[0xFFFF_FFFE, 1],
    )?;
    is(
        two(op::S_MUL_EXTENDED, &scalar(0xFFFF_FFFF), &scalar(2)),
        &[0xFFFF_FFFE, 0xFFFF_FFFF],
    )?;
    is(
        two(op::I_ADD_CARRY, &scalar(0xFFFF_FFFF), &scalar(1)),
        &[0, 1],
    )?;
    is(
        two(op::I_SUB_BORROW, &scalar(0), &scalar(1)),
        &[0xFFFF_FFFF, 1],
    )?;
    is(ext_one(ext::FIND_S_MSB, &scalar(0xFFFF_FFF8)), &[2])?;
    is(ext_one(ext::FIND_S_MSB, &scalar(8)), &[3])?;
    is(
        ext_one(ext::FIND_S_MSB, &scalar(0xFFFF_FFFF)),
        &[0xFFFF_FFFF],
    )?;
    is(ext_one(ext::FIND_U_MSB, &scalar(0)), &[0xFFFF_FFFF])?;
    is(ext_one(ext::S_ABS, &scalar(0x8000_0000)), &[0x8000_0000])?;
    Ok(())
}

#[test]
#[tactic(auto, unfolding(spv_value::specs::Words::words_of, spv_value::specs::Eval::CanEval, spv_value::specs::Eval::op_rules))]
fn logic_of_booleans(_rt: HostRuntime) -> Result<(), Fail> {
    is(not(&FALSE), &[1])?;
    is(not(&TRUE), &[0])?;
    let first = Operand {
        len: 4,
        w0: 0,
        w1: 0,
        w2: 1,
        w3: 1,
    };
    let second = Operand {
        len: 4,
        w0: 0,
        w1: 1,
        w2: 0,
        w3: 1,
    };
    is(logic(op::LOGICAL_EQUAL, &first, &second), &[1, 0, 0, 1])?;
    is(logic(op::LOGICAL_NOT_EQUAL, &first, &second), &[0, 1, 1, 0])?;
    is(logic(op::LOGICAL_OR, &first, &second), &[0, 1, 1, 1])?;
    is(logic(op::LOGICAL_AND, &first, &second), &[0, 0, 0, 1])?;
    let none = Operand {
        len: 3,
        w0: 0,
        w1: 0,
        w2: 0,
        w3: 1,
    };
    let last = Operand {
        len: 3,
        w0: 0,
        w1: 0,
        w2: 1,
        w3: 0,
    };
    let every = Operand {
        len: 3,
        w0: 1,
        w1: 1,
        w2: 1,
        w3: 0,
    };
    is(of_vector(op::ANY, &none), &[0])?;
    is(of_vector(op::ANY, &last), &[1])?;
    is(of_vector(op::ALL, &last), &[0])?;
    is(of_vector(op::ALL, &every), &[1])?;
    is(not(&last), &[1, 1, 0])?;
    Ok(())
}

#[test]
#[tactic(auto, unfolding(spv_value::specs::Words::words_of))]
fn choices(_rt: HostRuntime) -> Result<(), Fail> {
    let mixed = Operand {
        len: 3,
        w0: 0,
        w1: 1,
        w2: 0,
        w3: 0,
    };
    is(select(&TRUE, &scalar(7), &scalar(8)), &[7])?;
    is(select(&FALSE, &scalar(7), &scalar(8)), &[8])?;
    is(select(&TRUE, &vec3(1, 2, 3), &vec3(4, 5, 6)), &[1, 2, 3])?;
    is(select(&FALSE, &vec3(1, 2, 3), &vec3(4, 5, 6)), &[4, 5, 6])?;
    is(select(&mixed, &vec3(1, 2, 3), &vec3(4, 5, 6)), &[4, 2, 6])?;
    Ok(())
}

#[test]
#[tactic(auto, unfolding(spv_value::specs::Eval::CanEval, spv_value::specs::Eval::op_rules, spv_value::specs::Eval::CanExtEval, spv_value::specs::Eval::ext_rules))]
fn vectors_component_by_component(_rt: HostRuntime) -> Result<(), Fail> {
    is(two(op::I_ADD, &vec2(1, 2), &vec2(30, 40)), &[31, 42])?;
    is(
        two(op::I_SUB, &vec3(1, 2, 3), &vec3(1, 3, 1)),
        &[0, 0xFFFF_FFFF, 2],
    )?;
    is(
        two(op::I_MUL, &vec4(1, 2, 3, 4), &vec4(5, 6, 7, 8)),
        &[5, 12, 21, 32],
    )?;
    is(
        two(op::I_EQUAL, &vec4(1, 2, 3, 4), &vec4(1, 6, 3, 8)),
        &[1, 0, 1, 0],
    )?;
    is(
        one(op::NOT, &vec3(0, 1, 0xFFFF_FFFF)),
        &[0xFFFF_FFFF, 0xFFFF_FFFE, 0],
    )?;
    is(
        two(op::I_ADD_CARRY, &vec2(1, 0xFFFF_FFFF), &vec2(2, 2)),
        &[3, 1, 0, 1],
    )?;
    is(
        two(op::I_SUB_BORROW, &vec3(1, 2, 3), &vec3(2, 2, 2)),
        &[0xFFFF_FFFF, 0, 1, 1, 0, 0],
    )?;
    is(
        two(
            op::U_MUL_EXTENDED,
            &vec4(0x8000_0000, 1, 2, 3),
            &vec4(2, 1, 0x8000_0000, 0xFFFF_FFFF),
        ),
        &[0, 1, 0, 0xFFFF_FFFD, 1, 0, 1, 2],
    )?;
    is(
        field(op::BIT_FIELD_S_EXTRACT, &vec3(0x80, 0x70, 0xF0), 4, 4),
        &[0xFFFF_FFF8, 7, 0xFFFF_FFFF],
    )?;
    is(
        insert(&vec2(0, 0xFFFF_FFFF), &vec2(5, 5), 4, 4),
        &[0x50, 0xFFFF_FF5F],
    )?;
    is(ext_one(ext::FIND_S_MSB, &vec2(8, 0xFFFF_FFF8)), &[3, 2])?;
    is(
        ext_two(ext::S_MIN, &vec2(1, 0xFFFF_FFFF), &vec2(2, 0)),
        &[1, 0xFFFF_FFFF],
    )?;
    Ok(())
}

// The bounds may be the wrong way round.
#[test]
#[tactic(auto, unfolding(spv_value::specs::Eval::CanExtEval, spv_value::specs::Eval::ext_rules))]
fn clamps(_rt: HostRuntime) -> Result<(), Fail> {
    is(
        clamp(
            ext::U_CLAMP,
            &vec3(0, 5, 0xFFFF_FFFF),
            &vec3(1, 1, 1),
            &vec3(9, 9, 9),
        ),
        &[1, 5, 9],
    )?;
    is(
        clamp(ext::U_CLAMP, &scalar(5), &scalar(10), &scalar(3)),
        &[3],
    )?;
    is(
        clamp(
            ext::S_CLAMP,
            &vec3(0x8000_0000, 5, 0x7FFF_FFFF),
            &vec3(0xFFFF_FFFF, 1, 1),
            &vec3(9, 9, 9),
        ),
        &[0xFFFF_FFFF, 5, 9],
    )?;
    is(
        clamp(ext::S_CLAMP, &scalar(5), &scalar(10), &scalar(0xFFFF_FFFD)),
        &[0xFFFF_FFFD],
    )?;
    Ok(())
}

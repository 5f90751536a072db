// Each instruction at the edges of a word.
use crate::evaluated::{
    AMOUNTS, EDGES, ext_row, ext_table, field_rows, insert_rows, pair_table, row, table,
};
use spv_opcodes::{ext, op};
use std::test::Fail;

#[test]
#[tactic(auto, unfolding(spv_value::specs::Eval::CanEval, spv_value::specs::Eval::op_rules))]
fn arithmetic_at_the_edges(rt: HostRuntime) -> Result<(), Fail> {
    let alloc = rt.alloc();
    table(
        alloc,
        op::I_ADD,
        &EDGES,
        "
0 1 0x7fffffff 0x80000000 0xffffffff
1 2 0x80000000 0x80000001 0
0x7fffffff 0x80000000 0xfffffffe 0xffffffff 0x7ffffffe
0x80000000 0x80000001 0xffffffff 0 0x7fffffff
0xffffffff 0 0x7ffffffe 0x7fffffff 0xfffffffe
",
    )?;
    table(
        alloc,
        op::I_SUB,
        &EDGES,
        "
0 0xffffffff 0x80000001 0x80000000 1
1 0 0x80000002 0x80000001 2
0x7fffffff 0x7ffffffe 0 0xffffffff 0x80000000
0x80000000 0x7fffffff 1 0 0x80000001
0xffffffff 0xfffffffe 0x80000000 0x7fffffff 0
",
    )?;
    table(
        alloc,
        op::I_MUL,
        &EDGES,
        "
0 0 0 0 0
0 1 0x7fffffff 0x80000000 0xffffffff
0 0x7fffffff 1 0x80000000 0x80000001
0 0x80000000 0x80000000 0 0x80000000
0 0xffffffff 0x80000001 0x80000000 1
",
    )?;
    table(
        alloc,
        op::U_DIV,
        &EDGES,
        "
0 0 0 0 0
0 1 0 0 0
0 0x7fffffff 1 0 0
0 0x80000000 1 1 0
0 0xffffffff 2 1 1
",
    )?;
    table(
        alloc,
        op::U_MOD,
        &EDGES,
        "
0 0 0 0 0
0 0 1 1 1
0 0 0 0x7fffffff 0x7fffffff
0 0 1 0 0x80000000
0 0 1 0x7fffffff 0
",
    )?;
    table(
        alloc,
        op::S_DIV,
        &EDGES,
        "
0 0 0 0 0
0 1 0 0 0xffffffff
0 0x7fffffff 1 0 0x80000001
0 0x80000000 0xffffffff 1 0x80000000
0 0xffffffff 0 0 1
",
    )?;
    table(
        alloc,
        op::S_REM,
        &EDGES,
        "
0 0 0 0 0
0 0 1 1 0
0 0 0 0x7fffffff 0
0 0 0xffffffff 0 0
0 0 0xffffffff 0xffffffff 0
",
    )?;
    table(
        alloc,
        op::S_MOD,
        &EDGES,
        "
0 0 0 0 0
0 0 1 0x80000001 0
0 0 0 0xffffffff 0
0 0 0x7ffffffe 0 0
0 0 0x7ffffffe 0xffffffff 0
",
    )?;
    row(op::S_NEGATE, &[0, 0xFFFF_FFFF, 0x8000_0001, 0x8000_0000, 1])?;
    row(
        op::NOT,
        &[0xFFFF_FFFF, 0xFFFF_FFFE, 0x8000_0000, 0x7FFF_FFFF, 0],
    )?;
    row(
        op::BIT_REVERSE,
        &[0, 0x8000_0000, 0xFFFF_FFFE, 1, 0xFFFF_FFFF],
    )?;
    row(op::BIT_COUNT, &[0, 1, 31, 1, 32])?;
    row(op::BITCAST, &[0, 1, 0x7FFF_FFFF, 0x8000_0000, 0xFFFF_FFFF])?;
    Ok(())
}

#[test]
#[tactic(auto, unfolding(spv_value::specs::Eval::CanEval, spv_value::specs::Eval::op_rules))]
fn bits_and_comparisons_at_the_edges(rt: HostRuntime) -> Result<(), Fail> {
    let alloc = rt.alloc();
    table(
        alloc,
        op::BITWISE_OR,
        &EDGES,
        "
0 1 0x7fffffff 0x80000000 0xffffffff
1 1 0x7fffffff 0x80000001 0xffffffff
0x7fffffff 0x7fffffff 0x7fffffff 0xffffffff 0xffffffff
0x80000000 0x80000001 0xffffffff 0x80000000 0xffffffff
0xffffffff 0xffffffff 0xffffffff 0xffffffff 0xffffffff
",
    )?;
    table(
        alloc,
        op::BITWISE_XOR,
        &EDGES,
        "
0 1 0x7fffffff 0x80000000 0xffffffff
1 0 0x7ffffffe 0x80000001 0xfffffffe
0x7fffffff 0x7ffffffe 0 0xffffffff 0x80000000
0x80000000 0x80000001 0xffffffff 0 0x7fffffff
0xffffffff 0xfffffffe 0x80000000 0x7fffffff 0
",
    )?;
    table(
        alloc,
        op::BITWISE_AND,
        &EDGES,
        "
0 0 0 0 0
0 1 1 0 1
0 1 0x7fffffff 0 0x7fffffff
0 0 0 0x80000000 0x80000000
0 1 0x7fffffff 0x80000000 0xffffffff
",
    )?;
    table(
        alloc,
        op::I_EQUAL,
        &EDGES,
        "
1 0 0 0 0
0 1 0 0 0
0 0 1 0 0
0 0 0 1 0
0 0 0 0 1
",
    )?;
    table(
        alloc,
        op::I_NOT_EQUAL,
        &EDGES,
        "
0 1 1 1 1
1 0 1 1 1
1 1 0 1 1
1 1 1 0 1
1 1 1 1 0
",
    )?;
    table(
        alloc,
        op::U_GREATER_THAN,
        &EDGES,
        "
0 0 0 0 0
1 0 0 0 0
1 1 0 0 0
1 1 1 0 0
1 1 1 1 0
",
    )?;
    table(
        alloc,
        op::S_GREATER_THAN,
        &EDGES,
        "
0 0 0 1 1
1 0 0 1 1
1 1 0 1 1
0 0 0 0 0
0 0 0 1 0
",
    )?;
    table(
        alloc,
        op::U_GREATER_THAN_EQUAL,
        &EDGES,
        "
1 0 0 0 0
1 1 0 0 0
1 1 1 0 0
1 1 1 1 0
1 1 1 1 1
",
    )?;
    table(
        alloc,
        op::S_GREATER_THAN_EQUAL,
        &EDGES,
        "
1 0 0 1 1
1 1 0 1 1
1 1 1 1 1
0 0 0 1 0
0 0 0 1 1
",
    )?;
    table(
        alloc,
        op::U_LESS_THAN,
        &EDGES,
        "
0 1 1 1 1
0 0 1 1 1
0 0 0 1 1
0 0 0 0 1
0 0 0 0 0
",
    )?;
    table(
        alloc,
        op::S_LESS_THAN,
        &EDGES,
        "
0 1 1 0 0
0 0 1 0 0
0 0 0 0 0
1 1 1 0 1
1 1 1 0 0
",
    )?;
    table(
        alloc,
        op::U_LESS_THAN_EQUAL,
        &EDGES,
        "
1 1 1 1 1
0 1 1 1 1
0 0 1 1 1
0 0 0 1 1
0 0 0 0 1
",
    )?;
    table(
        alloc,
        op::S_LESS_THAN_EQUAL,
        &EDGES,
        "
1 1 1 0 0
0 1 1 0 0
0 0 1 0 0
1 1 1 1 1
1 1 1 0 1
",
    )?;
    Ok(())
}

#[test]
#[tactic(auto, unfolding(spv_value::specs::Eval::CanEval, spv_value::specs::Eval::op_rules))]
fn shifts_at_the_edges(rt: HostRuntime) -> Result<(), Fail> {
    let alloc = rt.alloc();
    table(
        alloc,
        op::SHIFT_RIGHT_LOGICAL,
        &AMOUNTS,
        "
0 0 0 0 0
1 0 0 0 0
0x7fffffff 0x3fffffff 0 0 0
0x80000000 0x40000000 1 0 0
0xffffffff 0x7fffffff 1 0 0
",
    )?;
    table(
        alloc,
        op::SHIFT_RIGHT_ARITHMETIC,
        &AMOUNTS,
        "
0 0 0 0 0
1 0 0 0 0
0x7fffffff 0x3fffffff 0 0 0
0x80000000 0xc0000000 0xffffffff 0 0
0xffffffff 0xffffffff 0xffffffff 0 0
",
    )?;
    table(
        alloc,
        op::SHIFT_LEFT_LOGICAL,
        &AMOUNTS,
        "
0 0 0 0 0
1 2 0x80000000 0 0
0x7fffffff 0xfffffffe 0x80000000 0 0
0x80000000 0 0 0 0
0xffffffff 0xfffffffe 0x80000000 0 0
",
    )?;
    Ok(())
}

#[test]
#[tactic(auto, unfolding(spv_value::specs::Eval::CanEval, spv_value::specs::Eval::op_rules))]
fn two_results_at_the_edges(rt: HostRuntime) -> Result<(), Fail> {
    let alloc = rt.alloc();
    pair_table(
        alloc,
        op::I_ADD_CARRY,
        "
0 1 0x7fffffff 0x80000000 0xffffffff
1 2 0x80000000 0x80000001 0
0x7fffffff 0x80000000 0xfffffffe 0xffffffff 0x7ffffffe
0x80000000 0x80000001 0xffffffff 0 0x7fffffff
0xffffffff 0 0x7ffffffe 0x7fffffff 0xfffffffe
",
        "
0 0 0 0 0
0 0 0 0 1
0 0 0 0 1
0 0 0 1 1
0 1 1 1 1
",
    )?;
    pair_table(
        alloc,
        op::I_SUB_BORROW,
        "
0 0xffffffff 0x80000001 0x80000000 1
1 0 0x80000002 0x80000001 2
0x7fffffff 0x7ffffffe 0 0xffffffff 0x80000000
0x80000000 0x7fffffff 1 0 0x80000001
0xffffffff 0xfffffffe 0x80000000 0x7fffffff 0
",
        "
0 1 1 1 1
0 0 1 1 1
0 0 0 1 1
0 0 0 0 1
0 0 0 0 0
",
    )?;
    pair_table(
        alloc,
        op::U_MUL_EXTENDED,
        "
0 0 0 0 0
0 1 0x7fffffff 0x80000000 0xffffffff
0 0x7fffffff 1 0x80000000 0x80000001
0 0x80000000 0x80000000 0 0x80000000
0 0xffffffff 0x80000001 0x80000000 1
",
        "
0 0 0 0 0
0 0 0 0 0
0 0 0x3fffffff 0x3fffffff 0x7ffffffe
0 0 0x3fffffff 0x40000000 0x7fffffff
0 0 0x7ffffffe 0x7fffffff 0xfffffffe
",
    )?;
    pair_table(
        alloc,
        op::S_MUL_EXTENDED,
        "
0 0 0 0 0
0 1 0x7fffffff 0x80000000 0xffffffff
0 0x7fffffff 1 0x80000000 0x80000001
0 0x80000000 0x80000000 0 0x80000000
0 0xffffffff 0x80000001 0x80000000 1
",
        "
0 0 0 0 0
0 0 0 0xffffffff 0xffffffff
0 0 0x3fffffff 0xc0000000 0xffffffff
0 0xffffffff 0xc0000000 0x40000000 0
0 0xffffffff 0xffffffff 0 0
",
    )?;
    Ok(())
}

#[test]
#[tactic(auto, unfolding(spv_value::specs::Eval::CanExtEval, spv_value::specs::Eval::ext_rules))]
fn extended_instructions_at_the_edges(rt: HostRuntime) -> Result<(), Fail> {
    let alloc = rt.alloc();
    ext_row(ext::S_ABS, &[0, 1, 0x7FFF_FFFF, 0x8000_0000, 1])?;
    ext_row(ext::S_SIGN, &[0, 1, 1, 0xFFFF_FFFF, 0xFFFF_FFFF])?;
    ext_row(ext::FIND_I_LSB, &[0xFFFF_FFFF, 0, 0, 31, 0])?;
    ext_row(ext::FIND_U_MSB, &[0xFFFF_FFFF, 0, 30, 31, 31])?;
    ext_row(ext::FIND_S_MSB, &[0xFFFF_FFFF, 0, 30, 30, 0xFFFF_FFFF])?;
    ext_table(
        alloc,
        ext::U_MIN,
        "
0 0 0 0 0
0 1 1 1 1
0 1 0x7fffffff 0x7fffffff 0x7fffffff
0 1 0x7fffffff 0x80000000 0x80000000
0 1 0x7fffffff 0x80000000 0xffffffff
",
    )?;
    ext_table(
        alloc,
        ext::S_MIN,
        "
0 0 0 0x80000000 0xffffffff
0 1 1 0x80000000 0xffffffff
0 1 0x7fffffff 0x80000000 0xffffffff
0x80000000 0x80000000 0x80000000 0x80000000 0x80000000
0xffffffff 0xffffffff 0xffffffff 0x80000000 0xffffffff
",
    )?;
    ext_table(
        alloc,
        ext::U_MAX,
        "
0 1 0x7fffffff 0x80000000 0xffffffff
1 1 0x7fffffff 0x80000000 0xffffffff
0x7fffffff 0x7fffffff 0x7fffffff 0x80000000 0xffffffff
0x80000000 0x80000000 0x80000000 0x80000000 0xffffffff
0xffffffff 0xffffffff 0xffffffff 0xffffffff 0xffffffff
",
    )?;
    ext_table(
        alloc,
        ext::S_MAX,
        "
0 1 0x7fffffff 0 0
1 1 0x7fffffff 1 1
0x7fffffff 0x7fffffff 0x7fffffff 0x7fffffff 0x7fffffff
0 1 0x7fffffff 0x80000000 0xffffffff
0 1 0x7fffffff 0xffffffff 0xffffffff
",
    )?;
    Ok(())
}

// Fields whose offset and count add to 32, to 33, and past 2^32.
#[test]
#[tactic(auto, unfolding(spv_value::specs::Eval::CanEval, spv_value::specs::Eval::op_rules))]
fn fields_at_the_edges(rt: HostRuntime) -> Result<(), Fail> {
    let alloc = rt.alloc();
    field_rows(
        alloc,
        op::BIT_FIELD_U_EXTRACT,
        "
0xdeadbeef 0 0 0
0xdeadbeef 0 32 0xdeadbeef
0xdeadbeef 4 28 0x0deadbee
0xdeadbeef 31 1 1
0x7fffffff 31 1 0
0xdeadbeef 32 0 0
0x80000000 16 16 0x00008000
0x7fff0000 16 16 0x00007fff
0xdeadbeef 8 4 14
0xdeadbeef 1 32 0
0xdeadbeef 30 3 0
0xdeadbeef 33 0 0
0xdeadbeef 0xffffffff 1 0
0xdeadbeef 1 0xffffffff 0
0xdeadbeef 0x80000000 0x80000000 0
0xdeadbeef 0xffffffff 0xffffffff 0
",
    )?;
    field_rows(
        alloc,
        op::BIT_FIELD_S_EXTRACT,
        "
0xdeadbeef 0 0 0
0xdeadbeef 0 32 0xdeadbeef
0xdeadbeef 4 28 0xfdeadbee
0xdeadbeef 31 1 0xffffffff
0x7fffffff 31 1 0
0xdeadbeef 32 0 0
0x80000000 16 16 0xffff8000
0x7fff0000 16 16 0x00007fff
0xdeadbeef 8 4 0xfffffffe
0xdeadbeef 1 32 0
0xdeadbeef 30 3 0
0xdeadbeef 33 0 0
0xdeadbeef 0xffffffff 1 0
0xdeadbeef 1 0xffffffff 0
0xdeadbeef 0x80000000 0x80000000 0
0xdeadbeef 0xffffffff 0xffffffff 0
",
    )?;
    insert_rows(
        alloc,
        "
0xdeadbeef 0x12345678 0 0 0xdeadbeef
0xdeadbeef 0x12345678 0 32 0x12345678
0xdeadbeef 0x12345678 4 28 0x2345678f
0xdeadbeef 0x12345678 31 1 0x5eadbeef
0x7fffffff 0x12345678 31 1 0x7fffffff
0xdeadbeef 0x12345678 32 0 0xdeadbeef
0x80000000 0x12345678 16 16 0x56780000
0x7fff0000 0x12345678 16 16 0x56780000
0xdeadbeef 0x12345678 8 4 0xdeadb8ef
0xdeadbeef 0x12345678 1 32 0
0xdeadbeef 0x12345678 30 3 0
0xdeadbeef 0x12345678 33 0 0
0xdeadbeef 0x12345678 0xffffffff 1 0
0xdeadbeef 0x12345678 1 0xffffffff 0
0xdeadbeef 0x12345678 0x80000000 0x80000000 0
0xdeadbeef 0x12345678 0xffffffff 0xffffffff 0
",
    )?;
    Ok(())
}

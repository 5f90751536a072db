ghost use Rattle.std.specs.Prelude.{◌≡◌};
ghost use Rattle.std.specs.Option.{option_map};
ghost use Rattle.spv_grammar.specs.Table.{row_at, row_of as table_row, shape, module_rows, type_rows, flow_rows, memory_rows, value_rows, pair_rows};

use crate::kind::{Enumerant, Kind};
use crate::section;
use spv_opcodes::op;

/// What an opcode's instructions are made of.
#[derive(Clone, Copy, Debug)]
pub struct Row {
    /// The section that they stand in, by the names of `section`. OpVariable and OpUndef have the section of
    /// those outside functions.
    pub section: u8,
    /// Their operands, in order.
    pub kinds: &'static [Kind],
}

/// The row of one of the instructions before types, and line marks.
fn module_row(opcode: u16) -> Option<Row>
    ensures { option_map shape result ≡ row_at module_rows opcode }
{
    match opcode {
        op::CAPABILITY => Some(Row {
            section: section::CAPABILITIES,
            kinds: &[Kind::One(Enumerant::Capability)],
        }),
        op::EXT_INST_IMPORT => Some(Row {
            section: section::IMPORTS,
            kinds: &[Kind::ResultId, Kind::SetName],
        }),
        op::MEMORY_MODEL => Some(Row {
            section: section::MEMORY_MODEL,
            kinds: &[
                Kind::One(Enumerant::AddressingModel),
                Kind::One(Enumerant::MemoryModel),
            ],
        }),
        op::ENTRY_POINT => Some(Row {
            section: section::ENTRY_POINTS,
            kinds: &[
                Kind::One(Enumerant::ExecutionModel),
                Kind::Id,
                Kind::Text,
                Kind::Ids(u16::MAX),
            ],
        }),
        op::EXECUTION_MODE => Some(Row {
            section: section::EXECUTION_MODES,
            kinds: &[
                Kind::Id,
                Kind::One(Enumerant::LiteralMode),
                Kind::Number,
                Kind::Number,
                Kind::Number,
            ],
        }),
        op::EXECUTION_MODE_ID => Some(Row {
            section: section::EXECUTION_MODES,
            kinds: &[
                Kind::Id,
                Kind::One(Enumerant::IdMode),
                Kind::Id,
                Kind::Id,
                Kind::Id,
            ],
        }),
        op::STRING => Some(Row {
            section: section::STRINGS,
            kinds: &[Kind::ResultId, Kind::Text],
        }),
        op::SOURCE => Some(Row {
            section: section::STRINGS,
            kinds: &[
                Kind::Number,
                Kind::Number,
                Kind::OptionalId,
                Kind::OptionalText,
            ],
        }),
        op::SOURCE_CONTINUED | op::SOURCE_EXTENSION => Some(Row {
            section: section::STRINGS,
            kinds: &[Kind::Text],
        }),
        op::NAME => Some(Row {
            section: section::NAMES,
            kinds: &[Kind::Id, Kind::Text],
        }),
        op::MEMBER_NAME => Some(Row {
            section: section::NAMES,
            kinds: &[Kind::Id, Kind::Number, Kind::Text],
        }),
        op::MODULE_PROCESSED => Some(Row {
            section: section::PROCESSES,
            kinds: &[Kind::Text],
        }),
        op::DECORATE => Some(Row {
            section: section::DECORATIONS,
            kinds: &[Kind::Id, Kind::Decoration],
        }),
        op::MEMBER_DECORATE => Some(Row {
            section: section::DECORATIONS,
            kinds: &[Kind::Id, Kind::Number, Kind::Decoration],
        }),
        op::LINE => Some(Row {
            section: section::ANYWHERE,
            kinds: &[Kind::Id, Kind::Number, Kind::Number],
        }),
        op::NO_LINE => Some(Row {
            section: section::ANYWHERE,
            kinds: &[],
        }),
        _ => None,
    }
}

/// The row of one of the types, constants and variables.
fn type_row(opcode: u16) -> Option<Row>
    ensures { option_map shape result ≡ row_at type_rows opcode }
{
    match opcode {
        op::TYPE_VOID | op::TYPE_BOOL => Some(Row {
            section: section::DECLARATIONS,
            kinds: &[Kind::ResultId],
        }),
        op::TYPE_INT => Some(Row {
            section: section::DECLARATIONS,
            kinds: &[Kind::ResultId, Kind::Number, Kind::Number],
        }),
        op::TYPE_VECTOR => Some(Row {
            section: section::DECLARATIONS,
            kinds: &[Kind::ResultId, Kind::Id, Kind::Number],
        }),
        op::TYPE_ARRAY => Some(Row {
            section: section::DECLARATIONS,
            kinds: &[Kind::ResultId, Kind::Id, Kind::Id],
        }),
        op::TYPE_RUNTIME_ARRAY => Some(Row {
            section: section::DECLARATIONS,
            kinds: &[Kind::ResultId, Kind::Id],
        }),
        op::TYPE_STRUCT => Some(Row {
            section: section::DECLARATIONS,
            kinds: &[Kind::ResultId, Kind::Ids(16383)],
        }),
        op::TYPE_POINTER => Some(Row {
            section: section::DECLARATIONS,
            kinds: &[Kind::ResultId, Kind::One(Enumerant::StorageClass), Kind::Id],
        }),
        op::TYPE_FUNCTION => Some(Row {
            section: section::DECLARATIONS,
            kinds: &[Kind::ResultId, Kind::Id, Kind::Ids(255)],
        }),
        op::CONSTANT_TRUE
        | op::CONSTANT_FALSE
        | op::CONSTANT_NULL
        | op::SPEC_CONSTANT_TRUE
        | op::SPEC_CONSTANT_FALSE
        | op::UNDEF => Some(Row {
            section: section::DECLARATIONS,
            kinds: &[Kind::ResultType, Kind::ResultId],
        }),
        op::CONSTANT | op::SPEC_CONSTANT => Some(Row {
            section: section::DECLARATIONS,
            kinds: &[Kind::ResultType, Kind::ResultId, Kind::SomeNumbers],
        }),
        op::CONSTANT_COMPOSITE | op::SPEC_CONSTANT_COMPOSITE => Some(Row {
            section: section::DECLARATIONS,
            kinds: &[Kind::ResultType, Kind::ResultId, Kind::Ids(u16::MAX)],
        }),
        op::SPEC_CONSTANT_OP => Some(Row {
            section: section::DECLARATIONS,
            kinds: &[Kind::ResultType, Kind::ResultId, Kind::Number],
        }),
        op::VARIABLE => Some(Row {
            section: section::DECLARATIONS,
            kinds: &[
                Kind::ResultType,
                Kind::ResultId,
                Kind::One(Enumerant::StorageClass),
                Kind::OptionalId,
            ],
        }),
        _ => None,
    }
}

/// The row of one of the functions, blocks and control flow.
fn flow_row(opcode: u16) -> Option<Row>
    ensures { option_map shape result ≡ row_at flow_rows opcode }
{
    match opcode {
        op::FUNCTION => Some(Row {
            section: section::FUNCTIONS,
            kinds: &[
                Kind::ResultType,
                Kind::ResultId,
                Kind::One(Enumerant::FunctionControl),
                Kind::Id,
            ],
        }),
        op::FUNCTION_PARAMETER => Some(Row {
            section: section::FUNCTIONS,
            kinds: &[Kind::ResultType, Kind::ResultId],
        }),
        op::FUNCTION_END | op::RETURN | op::UNREACHABLE => Some(Row {
            section: section::FUNCTIONS,
            kinds: &[],
        }),
        op::LABEL => Some(Row {
            section: section::FUNCTIONS,
            kinds: &[Kind::ResultId],
        }),
        op::FUNCTION_CALL => Some(Row {
            section: section::FUNCTIONS,
            kinds: &[
                Kind::ResultType,
                Kind::ResultId,
                Kind::Id,
                Kind::Ids(u16::MAX),
            ],
        }),
        op::PHI => Some(Row {
            section: section::FUNCTIONS,
            kinds: &[Kind::ResultType, Kind::ResultId, Kind::IdPairs],
        }),
        op::LOOP_MERGE => Some(Row {
            section: section::FUNCTIONS,
            kinds: &[Kind::Id, Kind::Id, Kind::One(Enumerant::LoopControl)],
        }),
        op::SELECTION_MERGE => Some(Row {
            section: section::FUNCTIONS,
            kinds: &[Kind::Id, Kind::One(Enumerant::SelectionControl)],
        }),
        op::BRANCH | op::RETURN_VALUE => Some(Row {
            section: section::FUNCTIONS,
            kinds: &[Kind::Id],
        }),
        op::BRANCH_CONDITIONAL => Some(Row {
            section: section::FUNCTIONS,
            kinds: &[Kind::Id, Kind::Id, Kind::Id, Kind::Weights],
        }),
        op::SWITCH => Some(Row {
            section: section::FUNCTIONS,
            kinds: &[Kind::Id, Kind::Id, Kind::Cases(16383)],
        }),
        _ => None,
    }
}

/// The row of one of the loads, stores, barriers and atomics.
fn memory_row(opcode: u16) -> Option<Row>
    ensures { option_map shape result ≡ row_at memory_rows opcode }
{
    match opcode {
        op::LOAD => Some(Row {
            section: section::FUNCTIONS,
            kinds: &[
                Kind::ResultType,
                Kind::ResultId,
                Kind::Id,
                Kind::MemoryOperands,
            ],
        }),
        op::STORE => Some(Row {
            section: section::FUNCTIONS,
            kinds: &[Kind::Id, Kind::Id, Kind::MemoryOperands],
        }),
        op::ACCESS_CHAIN | op::IN_BOUNDS_ACCESS_CHAIN => Some(Row {
            section: section::FUNCTIONS,
            kinds: &[Kind::ResultType, Kind::ResultId, Kind::Id, Kind::Ids(255)],
        }),
        op::ARRAY_LENGTH => Some(Row {
            section: section::FUNCTIONS,
            kinds: &[Kind::ResultType, Kind::ResultId, Kind::Id, Kind::Number],
        }),
        op::CONTROL_BARRIER => Some(Row {
            section: section::FUNCTIONS,
            kinds: &[Kind::Id, Kind::Id, Kind::Id],
        }),
        op::MEMORY_BARRIER => Some(Row {
            section: section::FUNCTIONS,
            kinds: &[Kind::Id, Kind::Id],
        }),
        op::ATOMIC_LOAD | op::ATOMIC_I_INCREMENT | op::ATOMIC_I_DECREMENT => Some(Row {
            section: section::FUNCTIONS,
            kinds: &[
                Kind::ResultType,
                Kind::ResultId,
                Kind::Id,
                Kind::Id,
                Kind::Id,
            ],
        }),
        op::ATOMIC_STORE => Some(Row {
            section: section::FUNCTIONS,
            kinds: &[Kind::Id, Kind::Id, Kind::Id, Kind::Id],
        }),
        op::ATOMIC_EXCHANGE
        | op::ATOMIC_I_ADD
        | op::ATOMIC_I_SUB
        | op::ATOMIC_S_MIN
        | op::ATOMIC_U_MIN
        | op::ATOMIC_S_MAX
        | op::ATOMIC_U_MAX
        | op::ATOMIC_AND
        | op::ATOMIC_OR
        | op::ATOMIC_XOR => Some(Row {
            section: section::FUNCTIONS,
            kinds: &[
                Kind::ResultType,
                Kind::ResultId,
                Kind::Id,
                Kind::Id,
                Kind::Id,
                Kind::Id,
            ],
        }),
        op::ATOMIC_COMPARE_EXCHANGE => Some(Row {
            section: section::FUNCTIONS,
            kinds: &[
                Kind::ResultType,
                Kind::ResultId,
                Kind::Id,
                Kind::Id,
                Kind::Id,
                Kind::Id,
                Kind::Id,
                Kind::Id,
            ],
        }),
        _ => None,
    }
}

/// The row of one of the composites, and arithmetic of one operand or of three and more.
fn value_row(opcode: u16) -> Option<Row>
    ensures { option_map shape result ≡ row_at value_rows opcode }
{
    match opcode {
        op::EXT_INST => Some(Row {
            section: section::FUNCTIONS,
            kinds: &[Kind::ResultType, Kind::ResultId, Kind::Id, Kind::ExtInst],
        }),
        op::VECTOR_EXTRACT_DYNAMIC => Some(Row {
            section: section::FUNCTIONS,
            kinds: &[Kind::ResultType, Kind::ResultId, Kind::Id, Kind::Id],
        }),
        op::VECTOR_INSERT_DYNAMIC
        | op::SELECT
        | op::BIT_FIELD_S_EXTRACT
        | op::BIT_FIELD_U_EXTRACT => Some(Row {
            section: section::FUNCTIONS,
            kinds: &[
                Kind::ResultType,
                Kind::ResultId,
                Kind::Id,
                Kind::Id,
                Kind::Id,
            ],
        }),
        op::VECTOR_SHUFFLE | op::COMPOSITE_INSERT => Some(Row {
            section: section::FUNCTIONS,
            kinds: &[
                Kind::ResultType,
                Kind::ResultId,
                Kind::Id,
                Kind::Id,
                Kind::Numbers,
            ],
        }),
        op::COMPOSITE_CONSTRUCT => Some(Row {
            section: section::FUNCTIONS,
            kinds: &[Kind::ResultType, Kind::ResultId, Kind::Ids(u16::MAX)],
        }),
        op::COMPOSITE_EXTRACT => Some(Row {
            section: section::FUNCTIONS,
            kinds: &[Kind::ResultType, Kind::ResultId, Kind::Id, Kind::Numbers],
        }),
        op::COPY_OBJECT
        | op::COPY_LOGICAL
        | op::U_CONVERT
        | op::S_CONVERT
        | op::BITCAST
        | op::S_NEGATE
        | op::ANY
        | op::ALL
        | op::LOGICAL_NOT
        | op::NOT
        | op::BIT_REVERSE
        | op::BIT_COUNT => Some(Row {
            section: section::FUNCTIONS,
            kinds: &[Kind::ResultType, Kind::ResultId, Kind::Id],
        }),
        op::BIT_FIELD_INSERT => Some(Row {
            section: section::FUNCTIONS,
            kinds: &[
                Kind::ResultType,
                Kind::ResultId,
                Kind::Id,
                Kind::Id,
                Kind::Id,
                Kind::Id,
            ],
        }),
        _ => None,
    }
}

/// The row of one of the arithmetic of two operands.
fn pair_row(opcode: u16) -> Option<Row>
    ensures { option_map shape result ≡ row_at pair_rows opcode }
{
    match opcode {
        op::I_ADD
        | op::I_SUB
        | op::I_MUL
        | op::U_DIV
        | op::S_DIV
        | op::U_MOD
        | op::S_REM
        | op::S_MOD
        | op::I_ADD_CARRY
        | op::I_SUB_BORROW
        | op::U_MUL_EXTENDED
        | op::S_MUL_EXTENDED
        | op::LOGICAL_EQUAL
        | op::LOGICAL_NOT_EQUAL
        | op::LOGICAL_OR
        | op::LOGICAL_AND
        | op::I_EQUAL
        | op::I_NOT_EQUAL
        | op::U_GREATER_THAN
        | op::S_GREATER_THAN
        | op::U_GREATER_THAN_EQUAL
        | op::S_GREATER_THAN_EQUAL
        | op::U_LESS_THAN
        | op::S_LESS_THAN
        | op::U_LESS_THAN_EQUAL
        | op::S_LESS_THAN_EQUAL
        | op::SHIFT_RIGHT_LOGICAL
        | op::SHIFT_RIGHT_ARITHMETIC
        | op::SHIFT_LEFT_LOGICAL
        | op::BITWISE_OR
        | op::BITWISE_XOR
        | op::BITWISE_AND => Some(Row {
            section: section::FUNCTIONS,
            kinds: &[Kind::ResultType, Kind::ResultId, Kind::Id, Kind::Id],
        }),
        _ => None,
    }
}

/// The row of an opcode, if the profile has it.
#[tactic(auto, unfolding(crate::specs::Table::row_of))]
pub fn row_of(opcode: u16) -> Option<Row>
    ensures { option_map shape result ≡ table_row opcode }
{
    module_row(opcode)
        .or_else(|| type_row(opcode))
        .or_else(|| flow_row(opcode))
        .or_else(|| memory_row(opcode))
        .or_else(|| value_row(opcode))
        .or_else(|| pair_row(opcode))
}

ghost use Rattle.std.specs.Prelude.{◌≡◌};
ghost use Rattle.spv_grammar.specs.Enumerants.{is_known, is_memory_operands, is_aligned as is_aligned_mask, is_bare_decoration as is_bare, is_numbered_decoration as is_numbered, is_builtin as is_builtin_number, ext_operands as operands_of, has_only, is_one_of};
ghost use Rattle.std.specs.Prelude.{[], ◌∷◌};
ghost use Rattle.spv_opcodes.specs.declared.storage_class.TheConstants as classes;

use crate::kind::Enumerant;
use spv_opcodes::{
    addressing_model, builtin, capability, decoration, execution_mode, execution_model, ext,
    function_control, loop_control, memory_model, memory_operand, selection_control, storage_class,
};

const FUNCTION_CONTROL: u32 = function_control::INLINE
    | function_control::DONT_INLINE
    | function_control::PURE
    | function_control::CONST;

const LOOP_CONTROL: u32 = loop_control::UNROLL | loop_control::DONT_UNROLL;

const SELECTION_CONTROL: u32 = selection_control::FLATTEN | selection_control::DONT_FLATTEN;

const MEMORY_OPERANDS: u32 = memory_operand::VOLATILE
    | memory_operand::ALIGNED
    | memory_operand::NONTEMPORAL;

/// Whether a mask has no bit but these.
fn has_only_bits(bits: u32, word: u32) -> bool
    ensures { result ≡ has_only bits word }
{
    word & bits == word
}

/// Whether the profile has this enumerant or mask.
pub fn is_known_enumerant(enumerant: Enumerant, word: u32) -> bool
    ensures { result ≡ is_known enumerant word }
{
    match enumerant {
        Enumerant::Capability => word == capability::SHADER,
        Enumerant::AddressingModel => word == addressing_model::LOGICAL,
        Enumerant::MemoryModel => word == memory_model::GLSL450,
        Enumerant::ExecutionModel => word == execution_model::GL_COMPUTE,
        Enumerant::LiteralMode => word == execution_mode::LOCAL_SIZE,
        Enumerant::IdMode => word == execution_mode::LOCAL_SIZE_ID,
        Enumerant::StorageClass => matches!(
            word,
            storage_class::INPUT
                | storage_class::UNIFORM
                | storage_class::WORKGROUP
                | storage_class::PRIVATE
                | storage_class::FUNCTION
                | storage_class::PUSH_CONSTANT
                | storage_class::STORAGE_BUFFER
        ),
        Enumerant::FunctionControl => has_only_bits(FUNCTION_CONTROL, word),
        Enumerant::LoopControl => has_only_bits(LOOP_CONTROL, word),
        Enumerant::SelectionControl => has_only_bits(SELECTION_CONTROL, word),
    }
}

/// Whether a mask of memory operands has only bits that the profile has.
pub fn is_known_memory_mask(word: u32) -> bool
    ensures { result ≡ is_memory_operands word }
{
    has_only_bits(MEMORY_OPERANDS, word)
}

/// Whether an alignment follows this mask of memory operands.
pub fn has_alignment(word: u32) -> bool
    ensures { result ≡ is_aligned_mask word }
{
    word & memory_operand::ALIGNED != 0
}

/// Whether this is a decoration without a literal word.
pub fn is_bare_decoration(word: u32) -> bool
    ensures { result ≡ is_bare word }
{
    matches!(
        word,
        decoration::BLOCK
            | decoration::RESTRICT
            | decoration::ALIASED
            | decoration::VOLATILE
            | decoration::COHERENT
            | decoration::NON_WRITABLE
            | decoration::NON_READABLE
    )
}

/// Whether this is a decoration with a number behind it.
pub fn is_numbered_decoration(word: u32) -> bool
    ensures { result ≡ is_numbered word }
{
    matches!(
        word,
        decoration::SPEC_ID
            | decoration::ARRAY_STRIDE
            | decoration::BINDING
            | decoration::DESCRIPTOR_SET
            | decoration::OFFSET
    )
}

/// Whether the profile has this built-in.
pub fn is_known_builtin(word: u32) -> bool
    ensures { result ≡ is_builtin_number word }
{
    matches!(
        word,
        builtin::NUM_WORKGROUPS
            | builtin::WORKGROUP_SIZE
            | builtin::WORKGROUP_ID
            | builtin::LOCAL_INVOCATION_ID
            | builtin::GLOBAL_INVOCATION_ID
            | builtin::LOCAL_INVOCATION_INDEX
    )
}

/// How many operands this instruction of `GLSL.std.450` has, if the profile has it.
pub fn ext_operands(number: u32) -> Option<usize>
    ensures { result ≡ operands_of number }
{
    match number {
        ext::S_ABS | ext::S_SIGN | ext::FIND_I_LSB | ext::FIND_S_MSB | ext::FIND_U_MSB => Some(1),
        ext::U_MIN | ext::S_MIN | ext::U_MAX | ext::S_MAX => Some(2),
        ext::U_CLAMP | ext::S_CLAMP => Some(3),
        _ => None,
    }
}

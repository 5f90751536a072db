// What is kept of one declaration more.
ghost use Rattle.std.specs.Prelude.{◌≡◌, ℕ, ◌&&◌, ◌==◌, List, Some, not, true, IfOk, slice_index};
ghost use Rattle.spv_base.specs.declared.fault.Fault.TheVariants as faults;
ghost use Rattle.spv_opcodes.specs.declared.op.TheConstants as opcodes;
ghost use Rattle.spv_opcodes.specs.declared.storage_class.TheConstants as classes;
ghost use Rattle.spv_module.specs.Instruction.{opcode as opcode_in};
ghost use Rattle.spv_module.specs.View.{seen};
ghost use Rattle.spv_meaning.specs.Constants.{Table, Meaning};
ghost use Rattle.spv_typing.specs.Kinds.{is_one_of};
ghost use Rattle.spv_declarations.specs.Broken.{depth_fits as fits};
ghost use Rattle.spv_declarations.specs.Declarations.{declared_before};
ghost use Rattle.spv_types.specs.Meanings.{StandsFor};
ghost use Rattle.spv_types.specs.Steps.{IsNext, type_opcodes, constant_opcodes};
ghost use Rattle.spv_types.specs.Entries.{AreKept, KeepsEntry, Declares};

use crate::declared_constant::declared_constant;
use crate::declared_type::declared_type;
use crate::facts::DEEPER;
use crate::meaning::Kept;
use crate::meanings::{Meanings, add};
use spv_base::{Fault, NoMemory, Refusal, rule};
use spv_decorations::Decorations;
use spv_ids::word;
use spv_module::View;
use spv_opcodes::{op, storage_class};
use spv_typing::Kinds;
use std::alloc::Global;

/// Whether the opcode is that of a type whose meaning is kept.
fn is_type(opcode: u16) -> bool
    ensures { result ≡ is_one_of type_opcodes opcode }
{
    matches!(
        opcode,
        op::TYPE_BOOL
            | op::TYPE_INT
            | op::TYPE_VECTOR
            | op::TYPE_ARRAY
            | op::TYPE_RUNTIME_ARRAY
            | op::TYPE_STRUCT
            | op::TYPE_POINTER
    )
}

/// Whether the opcode is that of a constant.
fn is_constant(opcode: u16) -> bool
    ensures { result ≡ is_one_of constant_opcodes opcode }
{
    matches!(
        opcode,
        op::CONSTANT_TRUE
            | op::CONSTANT_FALSE
            | op::CONSTANT
            | op::CONSTANT_COMPOSITE
            | op::CONSTANT_NULL
            | op::SPEC_CONSTANT_TRUE
            | op::SPEC_CONSTANT_FALSE
            | op::SPEC_CONSTANT
            | op::SPEC_CONSTANT_COMPOSITE
            | op::SPEC_CONSTANT_OP
            | op::UNDEF
    )
}

/// Whether it is a variable that no function owns.
fn is_global(inst: &View) -> bool
    ensures { result ≡ (opcode_in (seen inst.now) == opcodes.VARIABLE && not (slice_index (seen inst.now).words 3 == classes.FUNCTION)) }
{
    inst.opcode() == op::VARIABLE && word(inst, 3) != storage_class::FUNCTION
}

/// The id that the instruction declares, and what is kept of it.
fn kept(
    alloc: Global,
    kinds: &Kinds,
    decorations: &Decorations,
    meanings: &Meanings,
    inst: &View,
) -> Result<Option<(u32, Kept)>, NoMemory>
    requires same { decorations.now ≡ kinds.now }
    ensures { IfOk result (λ entry. (k : ℕ) → IsNext kinds.now k (seen inst.now) → AreKept (declared_before kinds.now k) meanings.now.entries → KeepsEntry kinds.now (declared_before kinds.now k) (seen inst.now) entry) }
{
    let opcode = inst.opcode();
    if is_type(opcode) {
        let kept = declared_type(kinds, decorations, meanings, inst);
        Ok(Some((word(inst, 1), kept)))
    } else if is_constant(opcode) {
        let constant = declared_constant(alloc, kinds, decorations, meanings, inst)?;
        Ok(Some((word(inst, 2), Kept::Constant(constant))))
    } else if is_global(inst) {
        Ok(Some((word(inst, 2), Kept::Variable)))
    } else {
        Ok(None)
    }
}

/// Whether a type nests at most 255 deep. Everything else passes.
fn depth_fits(kept: &Kept) -> bool
    ensures { (table : Table) (ids : List ℕ) (n r : ℕ) (m : Meaning) → StandsFor table ids n r kept.now m → result ≡ fits (Some (r, m)) }
{
    match kept {
        Kept::Type(facts) => facts.depth < DEEPER,
        _ => true,
    }
}

/// The refusal of an instruction.
pub fn refused(rule: u16, inst: &View) -> Fault
    ensures { result ≡ faults.Refused (record { rule = rule; at = (seen inst.now).offset }) }
{
    Fault::Refused(Refusal {
        rule,
        at: inst.offset,
    })
}

/// Keeps what the instruction, which stands outside functions and breaks no earlier rule, declares. Refuses a type that
/// nests too deep.
pub fn keep(
    alloc: Global,
    kinds: &Kinds,
    decorations: &Decorations,
    meanings: &mut Meanings,
    inst: &View,
) -> Result<(), Fault>
    requires same { decorations.now ≡ kinds.now }
    ensures { (k : ℕ) → IsNext kinds.now k (seen inst.now) → AreKept (declared_before kinds.now k) meanings.old.entries → Declares kinds.now k (seen inst.now) meanings.new.entries result }
{
    let Some((id, kept)) = kept(alloc, kinds, decorations, meanings, inst)? else {
        return Ok(());
    };
    if !depth_fits(&kept) {
        return Err(refused(rule::TYPE_DEPTH, inst));
    }
    add(meanings, id, kept)?;
    Ok(())
}

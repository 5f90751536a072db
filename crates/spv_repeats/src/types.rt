ghost use Rattle.std.specs.Prelude.{◌≡◌, cond, Some, None, IfOk};
ghost use Rattle.std.specs.Option.{option_map};
ghost use Rattle.spv_module.specs.View.{seen};
ghost use Rattle.spv_repeats.specs.Marks.{AreMarks};
ghost use Rattle.spv_repeats.specs.Repeats.{is_one_of, unique_types, is_unique_type, occurs, occurs_before};
ghost use Rattle.spv_repeats.specs.Steps.{Follows, HasTypes, type_words};

use crate::keys::add;
use crate::marks::Marks;
use crate::words::words_from;
use spv_module::{InstList, NoMemory, View};
use spv_opcodes::op;
use std::alloc::Global;
use std::collections::BTreeSet;

/// Whether a type of this opcode may stand only once.
fn is_unique(opcode: u16) -> bool
    ensures { result ≡ is_one_of unique_types opcode }
{
    matches!(
        opcode,
        op::TYPE_VOID | op::TYPE_BOOL | op::TYPE_INT | op::TYPE_VECTOR | op::TYPE_FUNCTION
    )
}

/// The opcode of such a type, then its words behind the result. None of another instruction.
fn key_of(alloc: Global, inst: &View) -> Result<Option<Vec<u32>>, NoMemory>
    ensures { IfOk result (λ key. option_map (λ k. k.items) key ≡ cond (is_unique_type (seen inst.now)) (Some (type_words (seen inst.now))) None) }
{
    if !is_unique(inst.opcode()) {
        return Ok(None);
    }
    let mut key = Vec::new(alloc);
    key.push(u32::from(inst.opcode()))?;
    key.extend_from_slice(words_from(inst, 2))?;
    Ok(Some(key))
}

/// Adds the instruction's key. Whether it was there.
fn add_type(alloc: Global, types: &mut BTreeSet<Vec<u32>>, inst: &View) -> Result<bool, NoMemory>
    ensures { IfOk result (λ again. Follows HasTypes occurs types.old types.new (seen inst.now) again) }
{
    add(types, key_of(alloc, inst)?)
}

/// Marks each void, bool, int, vector or function type that occurs before.
pub fn repeated_types(alloc: Global, insts: &InstList) -> Result<Marks, NoMemory>
    ensures { IfOk result (λ marks. AreMarks occurs_before insts.now marks) }
{
    let mut types = BTreeSet::new(alloc);
    let mut marks = Marks::new(alloc);
    'instructions: for k in 0..insts.count() {
        let again = add_type(alloc, &mut types, &insts.at(k))?;
        marks.push(again)?;
    }
    Ok(marks)
}

ghost use Rattle.std.specs.Prelude.{◌≡◌, cond, Some, None, IfOk};
ghost use Rattle.std.specs.Option.{option_map};
ghost use Rattle.spv_module.specs.Layout.{is_entry_point};
ghost use Rattle.spv_module.specs.View.{seen};
ghost use Rattle.spv_entries.specs.Kept.{AreRenamed};
ghost use Rattle.spv_repeats.specs.Steps.{Follows};
ghost use Rattle.spv_entries.specs.Names.{entry_name as name_in};
ghost use Rattle.spv_entries.specs.Slots.{HasNames, is_named_again};

use crate::keys::add;
use spv_grammar::text::text_words;
use spv_ids::words_from;
use spv_module::{InstList, NoMemory, View};
use spv_opcodes::op;
use std::alloc::Global;
use std::collections::BTreeSet;

/// The words of an entry point's name.
pub fn entry_name<'a>(inst: &View<'a>) -> &'a [u32]
    ensures { result.now ≡ name_in (seen inst.now) }
{
    let words = words_from(inst, 3);
    &words[..text_words(words)]
}

/// The words of an entry point's name. None of another instruction.
fn key_of(alloc: Global, inst: &View) -> Result<Option<Vec<u32>>, NoMemory>
    ensures { IfOk result (λ key. option_map (λ k. k.items) key ≡ cond (is_entry_point (seen inst.now)) (Some (name_in (seen inst.now))) None) }
{
    if inst.opcode() != op::ENTRY_POINT {
        return Ok(None);
    }
    Ok(Some(Vec::from_slice(alloc, entry_name(inst))?))
}

/// Adds an entry point's name. Whether it was there.
fn add_name(alloc: Global, names: &mut BTreeSet<Vec<u32>>, inst: &View) -> Result<bool, NoMemory>
    ensures { IfOk result (λ again. Follows HasNames is_named_again names.old names.new (seen inst.now) again) }
{
    add(names, key_of(alloc, inst)?)
}

/// Marks each entry point that has the name of one before it: one mark for each instruction.
pub fn renamed(alloc: Global, insts: &InstList) -> Result<Vec<bool>, NoMemory>
    ensures { IfOk result (λ marks. AreRenamed insts.now marks.items) }
{
    let mut names = BTreeSet::new(alloc);
    let mut marks = Vec::new(alloc);
    'instructions: for k in 0..insts.count() {
        let again = add_name(alloc, &mut names, &insts.at(k))?;
        marks.push(again)?;
    }
    Ok(marks)
}

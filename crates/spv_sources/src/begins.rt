// Where the blocks of a function begin.
ghost use Rattle.std.specs.Prelude.{◌≡◌, ℕ, ◌+◌, ◌<◌, ◌≤◌, length, IfOk, OnOk};
ghost use Rattle.spv_blocks.specs.Cutting.{is_label_mark};
ghost use Rattle.spv_module.specs.View.{seen};
ghost use Rattle.spv_sources.specs.Filling.{IsFilled};
ghost use Rattle.spv_sources.specs.Values.{AddsBegin, HasBegins, IsMade};

use crate::phis::{phis_from, values_in};
use crate::reading::id_at;
use crate::unmarked::Unmarked;
use spv_base::{Id, NoMemory};
use spv_module::View;
use spv_opcodes::op;
use sqlite_items::Items;
use std::alloc::Global;
use std::collections::BTreeMap;

/// Where a block begins, behind its OpLabel, and what its OpPhi take, by the block that it comes from.
#[derive(Drop)]
pub(crate) struct Begin {
    pub(crate) start: usize,
    pub(crate) values: BTreeMap<u32, Items<Id>>,
}

/// Whether the instruction is OpLabel.
pub(crate) fn is_label(inst: &View) -> bool
    ensures { result ≡ is_label_mark (seen inst.now) }
{
    inst.opcode() == op::LABEL
}

fn begin_at(alloc: Global, insts: &Unmarked, start: usize) -> Result<Begin, NoMemory>
    requires { start ≤ length insts.now }
    ensures { IfOk result (λ begin. IsMade insts.now start begin) }
{
    let phis = phis_from(alloc, insts, start)?;
    let values = values_in(alloc, &phis)?;
    Ok(Begin { start, values })
}

/// Adds the block that begins at a place, unless there is one with its label.
fn add_begin(
    alloc: Global,
    begins: &mut BTreeMap<u32, Begin>,
    insts: &Unmarked,
    start: usize,
    label: u32,
) -> Result<(), NoMemory>
    requires { start ≤ length insts.now }
    ensures { OnOk result (AddsBegin insts.now start label begins.old begins.new) }
{
    let begin = begin_at(alloc, insts, start)?;
    if !begins.contains_key(&label) {
        begins.insert(label, begin).map_err(|_| NoMemory)?;
    }
    Ok(())
}

/// Adds the block that the k-th instruction begins, if it is an OpLabel.
fn add_block(
    alloc: Global,
    begins: &mut BTreeMap<u32, Begin>,
    insts: &Unmarked,
    k: usize,
) -> Result<(), NoMemory>
    requires { k < length insts.now }
    ensures { OnOk result (IsFilled insts.now k begins.old → IsFilled insts.now (k + 1) begins.new) }
{
    prove!(k < insts.count());
    let inst = insts.at(k);
    if is_label(&inst) {
        add_begin(alloc, begins, insts, k + 1, id_at(&inst, 1).number())?;
    }
    Ok(())
}

/// Where the blocks begin, by their labels.
pub(crate) fn begins_of(alloc: Global, insts: &Unmarked) -> Result<BTreeMap<u32, Begin>, NoMemory>
    ensures { IfOk result (λ begins. HasBegins insts.now begins) }
{
    let mut begins = BTreeMap::new(alloc);
    'each: for k in 0..insts.count() {
        add_block(alloc, &mut begins, insts, k)?;
    }
    Ok(begins)
}

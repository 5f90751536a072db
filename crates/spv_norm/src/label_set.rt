ghost use Rattle.std.specs.Prelude.{◌≡◌, ℕ, IfOk, OnOk, ◌||◌};
ghost use Rattle.std.specs.BTreeSet.{contains};
ghost use Rattle.std.specs.List.{list_any};
ghost use Rattle.std.specs.Ordering.{nat_cmp};
ghost use Rattle.spv_module.specs.View.{seen};
ghost use Rattle.spv_tree.specs.Tree.{words_of};
ghost use Rattle.spv_norm.specs.Norm.{is_label_line};

use spv_base::NoMemory;
use spv_ids::word;
use spv_module::{InstList, View};
use spv_opcodes::op;
use std::alloc::Global;
use std::collections::BTreeSet;

/// Adds the label of an OpLabel.
fn add_label(labels: &mut BTreeSet<u32>, inst: &View) -> Result<(), NoMemory>
    ensures { OnOk result ((l : ℕ) → contains nat_cmp labels.new l ≡ (contains nat_cmp labels.old l || is_label_line l (seen inst.now).words)) }
{
    if inst.opcode() == op::LABEL {
        labels.insert(word(inst, 1))?;
    }
    Ok(())
}

/// The labels of instructions.
pub(crate) fn labels(alloc: Global, insts: &InstList) -> Result<BTreeSet<u32>, NoMemory>
    ensures { IfOk result (λ labels. (l : ℕ) → contains nat_cmp labels l ≡ list_any (is_label_line l) (words_of insts.now)) }
{
    let mut labels = BTreeSet::new(alloc);
    'instructions: for k in 0..insts.count() {
        add_label(&mut labels, &insts.at(k))?;
    }
    Ok(labels)
}

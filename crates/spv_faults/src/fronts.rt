ghost use Rattle.std.specs.Prelude.{◌≡◌, IfOk};
ghost use Rattle.std.specs.BTreeSet.{contains};
ghost use Rattle.std.specs.Ordering.{nat_cmp};
ghost use Rattle.spv_module.specs.First.{first};
ghost use Rattle.spv_blocks.specs.Seen.{seen_block};
ghost use Rattle.spv_walk.specs.Phis.{predecessors};
ghost use Rattle.spv_walk.specs.Rules.{at_front};
ghost use Rattle.spv_faults.specs.Once.{IsSetOf};

use crate::merging::merge_fault;
use crate::phis::phi_fault;
use crate::refusals::earlier;
use spv_base::{NoMemory, Refusal};
use spv_blocks::{Block, Labels};
use std::alloc::Global;
use std::collections::BTreeSet;

/// The first rule that a block breaks by its OpPhi and its merge instructions, 403, 405 or 406. `parents` are the labels
/// of the blocks that branch to it, and `pointers` the types that are pointers.
pub fn front_fault(
    alloc: Global,
    labels: &Labels,
    parents: &BTreeSet<u32>,
    pointers: &BTreeSet<u32>,
    label: u32,
    block: &Block,
) -> Result<Option<Refusal>, NoMemory>
    requires { IsSetOf (predecessors labels.now label) parents.now }
    ensures { IfOk result (λ fault. fault ≡ first (at_front (contains nat_cmp pointers.now) labels.now label (seen_block block.now))) }
{
    let phi = phi_fault(alloc, labels, parents, pointers, label, block)?;
    let merge = merge_fault(labels, label, block);
    Ok(earlier(phi, merge))
}

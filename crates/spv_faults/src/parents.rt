ghost use Rattle.std.specs.Prelude.{◌≡◌, ℕ, Some, IfOk};
ghost use Rattle.spv_blocks.specs.Edges.{predecessors_of};
ghost use Rattle.spv_blocks.specs.Places.{place as place_in};
ghost use Rattle.spv_walk.specs.Numbering.{HasOwnLabels};
ghost use Rattle.spv_walk.specs.Phis.{predecessors};
ghost use Rattle.spv_faults.specs.Once.{IsSetOf};

use spv_base::NoMemory;
use spv_blocks::{Edges, Function};
use std::alloc::Global;
use std::collections::BTreeSet;

/// The labels of the blocks that branch to the block at a place, by the edges of the function.
pub fn parents_of(
    alloc: Global,
    function: &Function,
    edges: &Edges,
    place: usize,
) -> Result<BTreeSet<u32>, NoMemory>
    requires { edges.now.predecessors ≡ predecessors_of function.now }
    ensures { IfOk result (λ parents. (l : ℕ) → HasOwnLabels function.now → place_in function.now l ≡ Some place → IsSetOf (predecessors function.now l) parents) }
{
    let mut parents = BTreeSet::new(alloc);
    'numbers: for i in edges.predecessors.row(place) {
        parents.insert(function.label(*i))?;
    }
    Ok(parents)
}

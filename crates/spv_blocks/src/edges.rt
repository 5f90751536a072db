ghost use Rattle.std.specs.Prelude.{◌≡◌, IfOk};
ghost use Rattle.spv_blocks.specs.Blocks.{Code};
ghost use Rattle.spv_blocks.specs.Edges.{rows_of, targets_of, predecessors_of, AreBranches};

use crate::labels::Labels;
use graph::{Graph, Places, distinct, reversed};
use spv_base::NoMemory;
use std::alloc::Global;

/// The blocks of a function as graphs, whose places are the numbers of blocks. What is no label of the function is not
/// among the targets.
#[derive(Debug, Drop)]
pub struct Edges {
    /// The row of a block has each block to which its terminator leads, once, in the order of the terminator.
    pub targets: Graph,
    /// The row of a block has each block that leads to it, once, in order.
    pub predecessors: Graph,
}

/// Where the terminators of the blocks lead, with repetitions; a number past all blocks for what is no label.
fn rows(alloc: Global, labels: &Labels) -> Result<Graph, NoMemory>
    ensures { IfOk result (λ rows. rows ≡ rows_of labels.now) }
{
    let mut rows = Graph::new(alloc);
    'each: for i in 0..labels.count() {
        rows.push(Places::from_vec(labels.row(alloc, i)?))?;
    }
    Ok(rows)
}

impl Edges {
    /// The graphs of a function. They take time in proportion to its targets, but for looking up their labels.
    pub fn of(alloc: Global, labels: &Labels) -> Result<Edges, NoMemory>
        ensures targets { IfOk result (λ edges. edges.targets ≡ targets_of labels.now) }
        ensures predecessors { IfOk result (λ edges. edges.predecessors ≡ predecessors_of labels.now) }
    {
        let rows = rows(alloc, labels)?;
        Ok(Edges {
            targets: distinct(alloc, &rows)?,
            predecessors: reversed(alloc, &rows)?,
        })
    }
}

/// The edges of a function are its branches. Does nothing.
#[tactic(auto, using(crate::proofs::EdgeLaws::are_branches))]
pub fn edges_law()
    ensures { (f : Code) → AreBranches f }
{}

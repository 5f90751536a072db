ghost use Rattle.std.specs.Prelude.{◌≡◌, IfOk};
ghost use Rattle.spv_walk.specs.Numbering.{HasOwnLabels};
ghost use Rattle.spv_flow.specs.Known.{AreTables};

use spv_base::NoMemory;
use spv_blocks::{Edges, Function, Labels, Table};
use spv_entering::{enterers, tops};
use spv_walking::{BackEdges, Walked, walk};
use std::alloc::Global;
use std::collections::BTreeSet;

/// A function with all tables from which its broken rules are read.
#[derive(Drop)]
pub(crate) struct Known<'k, 'f> {
    /// The types that are pointers.
    pub(crate) pointers: &'k BTreeSet<u32>,
    pub(crate) function: &'k Function,
    pub(crate) labels: &'k Labels<'f>,
    pub(crate) edges: Edges,
    /// The block from which each label may be entered.
    pub(crate) enterers: Table<u32>,
    pub(crate) walked: Walked,
    /// The blocks that end loops with their back edges.
    pub(crate) loops: BackEdges,
}

impl<'k, 'f> Known<'k, 'f> {
    ghost use Rattle.std.specs.Prelude.{◌≡◌, IfOk};
    ghost use Rattle.spv_walk.specs.Numbering.{HasOwnLabels};
    ghost use Rattle.spv_flow.specs.Known.{AreTables};

    /// Fills the tables of a function.
    pub(crate) fn of(
        alloc: Global,
        pointers: &'k BTreeSet<u32>,
        function: &'k Function,
        labels: &'k Labels<'f>,
    ) -> Result<Known<'k, 'f>, NoMemory>
        requires own { HasOwnLabels function.now }
        requires same { labels.now ≡ function.now }
        ensures tables { IfOk result AreTables }
        ensures pointers { IfOk result (λ known. known.pointers.now ≡ pointers.now) }
        ensures function { IfOk result (λ known. known.function.now ≡ function.now) }
    {
        let edges = Edges::of(alloc, labels)?;
        let tops = tops(alloc, labels, &edges)?;
        let enterers = enterers(alloc, labels, &edges, &tops)?;
        let walked = walk(alloc, labels, &enterers)?;
        let loops = walked.back_edges(alloc, labels, function)?;
        Ok(Known {
            pointers,
            function,
            labels,
            edges,
            enterers,
            walked,
            loops,
        })
    }
}

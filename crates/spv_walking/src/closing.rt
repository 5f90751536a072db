use crate::falls::branches;
use crate::rows::Level;
use crate::walked::Walked;
use spv_base::NoMemory;
use spv_blocks::{Function, Labels, Table};
use std::alloc::Global;

/// The walked blocks that end continue parts of loops with back edges, by the labels of the headers.
#[derive(Drop)]
pub struct BackEdges {
    /// The one block, by its label; none where there are more.
    blocks: Table<Option<u32>>,
}

impl BackEdges {
    ghost use Rattle.std.specs.Prelude.{◌≡◌, ℕ, None, OnOk, IfOk};
    ghost use Rattle.spv_blocks.specs.Tables.{found};
    ghost use Rattle.spv_walking.specs.Edges.{has_one as has_one_in, AddsEdge};

    fn beside(alloc: Global, labels: &Labels) -> Result<BackEdges, NoMemory>
        ensures { IfOk result (λ edges. (header : ℕ) → found edges.blocks header ≡ None) }
    {
        Ok(BackEdges {
            blocks: Table::beside(alloc, labels)?,
        })
    }

    /// Whether the continue part of the loop with this header ends in exactly one back edge.
    pub fn has_one(&self, header: u32) -> bool
        ensures { result ≡ has_one_in self.now header }
    {
        match self.blocks.get(header) {
            Some(Some(_)) => true,
            Some(None) => false,
            None => false,
        }
    }

    /// Adds a block, where it ends a loop.
    fn add(&mut self, header: Option<u32>, label: u32) -> Result<(), NoMemory>
        ensures { OnOk result (AddsEdge self.old self.new header label) }
    {
        let Some(header) = header else { return Ok(()) };
        let block = match self.blocks.get(header) {
            None => Some(label),
            Some(Some(one)) if one == label => Some(label),
            Some(_) => None,
        };
        self.blocks.put(header, block)
    }
}

impl Walked {
    ghost use Rattle.std.specs.Prelude.{◌≡◌, IfOk};
    ghost use Rattle.spv_walk.specs.Walk.{OneBackEdge};
    ghost use Rattle.spv_walk.specs.Tables.{Tells};
    ghost use Rattle.spv_walk.specs.Walked.{InPlaces, IsWalk};
    ghost use Rattle.spv_walking.specs.Edges.{edge_of, has_one as has_one_in};
    ghost use Rattle.spv_walking.specs.Table.{context_of};

    /// The header of the loop whose continue part a block ends with the back edge.
    fn ends_loop(&self, labels: &Labels, label: u32) -> Option<u32>
        ensures { result ≡ edge_of labels.now label (context_of self.now label) }
    {
        let place = self.place(label)?;
        match self.rows().level(place) {
            Some(Level::Next(header, _)) => {
                if labels.construct(label).is_none() && branches(labels, label, header) {
                    Some(header)
                } else {
                    None
                }
            }
            _ => None,
        }
    }

    /// The blocks of a walk that end continue parts of loops with back edges. A back edge is a branch to the header from a
    /// block that opens no construct, and round which the continue part is the innermost.
    pub fn back_edges(
        &self,
        alloc: Global,
        labels: &Labels,
        function: &Function,
    ) -> Result<BackEdges, NoMemory>
        requires same { labels.now ≡ function.now }
        requires walk { IsWalk labels.now (InPlaces (context_of self.now)) }
        ensures { IfOk result (λ edges. Tells (λ header. has_one_in edges header) (OneBackEdge labels.now)) }
    {
        let mut edges = BackEdges::beside(alloc, labels)?;
        'each: for k in 0..function.count() {
            let label = function.block(k).label;
            edges.add(self.ends_loop(labels, label), label)?;
        }
        Ok(edges)
    }
}

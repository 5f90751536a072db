ghost use Rattle.std.specs.Prelude.{◌≡◌, IfOk};
ghost use Rattle.spv_blocks.specs.Tables.{found};
ghost use Rattle.spv_blocks.specs.Edges.{predecessors_of};
ghost use Rattle.spv_entering.specs.Tops.{AreTops};
ghost use Rattle.spv_entering.specs.Filling.{Starts};

use crate::filling::Filling;
use crate::flow::Flow;
use spv_base::NoMemory;
use spv_blocks::{Edges, Labels, Table};
use std::alloc::Global;

/// The table of the continue targets alone, all of which wait.
fn begun(alloc: Global, flow: &Flow) -> Result<Filling, NoMemory>
    ensures { IfOk result (λ filling. Starts flow.now filling) }
{
    let mut filling = Filling::over(alloc, flow)?;
    'each: for k in 0..flow.labels().count() {
        if let Some(h) = flow.labels().label(k) {
            filling.begin(flow, h)?;
        }
    }
    Ok(filling)
}

/// The loop at the top of whose continue part each block stands.
pub(crate) fn tops_of(alloc: Global, flow: &Flow) -> Result<Table<u32>, NoMemory>
    ensures { IfOk result (λ tops. AreTops flow.now.code (found tops)) }
{
    let mut filling = begun(alloc, flow)?;
    'turns: while let Some(b) = filling.next() {
        filling.turn(alloc, flow, b)?;
    }
    Ok(filling.into_tops())
}

/// The loop at the top of whose continue part each block stands, by the label of the block: the label of the loop's
/// header. The edges are those of the labels. It takes time in proportion to the edges, but for looking up labels.
pub fn tops(alloc: Global, labels: &Labels, edges: &Edges) -> Result<Table<u32>, NoMemory>
    requires { edges.now.predecessors ≡ predecessors_of labels.now }
    ensures { IfOk result (λ tops. AreTops labels.now (found tops)) }
{
    let flow = Flow::of(alloc, labels, edges)?;
    tops_of(alloc, &flow)
}

ghost use Rattle.std.specs.Prelude.{◌≡◌, IfOk, OnOk, fold};
ghost use Rattle.graph.specs.Rows.{added};
ghost use Rattle.graph.specs.Reversing.{reversed};

use crate::rows::Graph;
use spv_base::NoMemory;
use std::alloc::Global;

/// Adds a place to the rows of its successors, to each once.
fn with_predecessor(graph: &mut Graph, successors: &[usize], place: usize) -> Result<(), NoMemory>
    ensures { OnOk result (graph.new ≡ fold (λ rows successor. added rows successor place) graph.old successors.now) }
{
    'successors: for successor in successors {
        graph.add_once(*successor, place)?;
    }
    Ok(())
}

/// The graph with its edges turned round: the row of each place lists the places whose rows name it, in increasing
/// order, each once. Numbers past the last place have no row here either.
pub fn reversed(alloc: Global, graph: &Graph) -> Result<Graph, NoMemory>
    ensures { IfOk result (λ turned. turned ≡ reversed graph.now) }
{
    let mut turned = Graph::bare(alloc, graph.count())?;
    'places: for place in 0..graph.count() {
        with_predecessor(&mut turned, graph.row(place), place)?;
    }
    Ok(turned)
}

ghost use Rattle.std.specs.Prelude.{◌≡◌, IfOk};
ghost use Rattle.std.specs.List.{list_all};
ghost use Rattle.graph.specs.Rows.{is_marked as marked};
ghost use Rattle.spv_calls.specs.Kept.{AreSettled};

use graph::{Graph, NoMemory, is_marked};
use std::alloc::Global;

/// Whether all places are marked.
fn all_marked(marks: &[bool], places: &[usize]) -> bool
    ensures { result ≡ list_all (marked marks.now) places.now }
{
    places.iter().all(|place| is_marked(marks, *place))
}

/// Marks a place whose successors are all marked.
fn settle_one(settled: &mut Vec<bool>, graph: &Graph, place: usize)
    ensures { AreSettled graph.now settled.old.items → AreSettled graph.now settled.new.items }
{
    if place < settled.len() && all_marked(settled, graph.row(place)) {
        settled[place] = true;
    }
}

/// Marks places that do not reach themselves: going by the order, each whose successors are all marked. All are
/// marked where each comes behind its successors.
pub fn settle(alloc: Global, graph: &Graph, order: &[usize]) -> Result<Vec<bool>, NoMemory>
    ensures { IfOk result (λ settled. AreSettled graph.now settled.items) }
{
    let mut settled = vec![in alloc; false; graph.count()]?;
    'places: for place in order {
        settle_one(&mut settled, graph, *place);
    }
    Ok(settled)
}

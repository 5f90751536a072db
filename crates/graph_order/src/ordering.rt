ghost use Rattle.std.specs.Prelude.{◌≡◌, ℕ, ◌<◌, IfOk, OnOk, MatchOption, length, slice_get, option_map};
ghost use Rattle.graph_order.specs.Order.{IsOrdered};
ghost use Rattle.graph_order.specs.Taking.{Taking, add, begun, passed, release};

use graph::{Graph, distinct, reversed};
use spv_base::NoMemory;
use std::alloc::Global;
use std::marker::Model;

/// An order under way: the places that may come next stand in it already, and of each place it is known how many of those
/// that lead to it have not been passed.
#[derive(Drop)]
struct Ordering {
    waits: Vec<usize>,
    order: Vec<usize>,
}

impl Model for Ordering {
    ghost use Rattle.graph_order.specs.Taking.{Taking};

    ghost Value = { Taking };

    ghost view = { λ ordering. record { waits = ordering.waits.items; order = ordering.order.items } };
}

impl Ordering {
    /// The order of the places that nothing leads to, by the rows of what leads to each.
    fn begin(alloc: Global, leading: &Graph) -> Result<Ordering, NoMemory>
        ensures { IfOk result (λ ordering. ordering ≡ begun leading.now) }
    {
        let mut ordering = Ordering {
            waits: Vec::new(alloc),
            order: Vec::new(alloc),
        };
        'places: for place in 0..leading.count() {
            ordering.add(place, leading.row(place).len())?;
        }
        Ok(ordering)
    }

    /// Adds a place that so many places lead to.
    fn add(&mut self, place: usize, waits: usize) -> Result<(), NoMemory>
        ensures { OnOk result (self.new ≡ add self.old place waits) }
    {
        self.waits.push(waits)?;
        if waits == 0 {
            self.order.push(place)?;
        }
        Ok(())
    }

    /// One of the places that lead to this one has been passed.
    fn release(&mut self, place: usize) -> Result<(), NoMemory>
        ensures { OnOk result (self.new ≡ release self.old place) }
    {
        if place < self.waits.len() && self.waits[place] > 0 {
            self.waits[place] -= 1;
            if self.waits[place] == 0 {
                self.order.push(place)?;
            }
        }
        Ok(())
    }

    /// The places of a row are released.
    fn pass(&mut self, row: &[usize]) -> Result<(), NoMemory>
        ensures { OnOk result (self.new ≡ passed self.old row.now) }
    {
        'places: for place in row {
            self.release(*place)?;
        }
        Ok(())
    }

    /// The order, where it has so many places.
    fn into_whole(self, count: usize) -> Option<Vec<usize>>
        ensures { MatchOption result (length self.order ≡ count → ⊥) (λ order. (order.items ≡ self.order) × (length self.order ≡ count)) }
    {
        let Ordering { waits: _, order } = self;
        if order.len() == count {
            Some(order)
        } else {
            None
        }
    }

    /// The k-th place of the order so far.
    fn at(&self, k: usize) -> Option<usize>
        ensures { result ≡ slice_get self.now.order k }
    {
        self.order.get(k).copied()
    }
}

/// An order of all places in which each edge leads onward. None exactly where the places cannot be numbered so that each
/// edge leads to a greater number. Takes time in proportion to the places and the edges.
pub fn order(alloc: Global, graph: &Graph) -> Result<Option<Vec<usize>>, NoMemory>
    ensures { IfOk result (λ found. IsOrdered graph.now (option_map (λ order. order.items) found)) }
{
    let count = graph.count();
    let onward = distinct(alloc, graph)?;
    let leading = reversed(alloc, graph)?;
    let mut ordering = Ordering::begin(alloc, &leading)?;
    let mut k = 0;
    'order: while let Some(place) = ordering.at(k) {
        ordering.pass(onward.row(place))?;
        k += 1;
    }
    Ok(ordering.into_whole(count))
}

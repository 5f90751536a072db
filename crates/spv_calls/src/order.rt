use graph::{Graph, NoMemory};
use std::alloc::Global;

/// A walk in depth that is under way.
#[derive(Drop)]
struct Descent {
    met: Vec<bool>,
    /// The places that it came along, each with the number of successors that it has looked at.
    way: Vec<(usize, usize)>,
    /// The places that it has left.
    order: Vec<usize>,
}

impl Descent {
    /// Goes on at a place, unless that was met.
    fn enter(&mut self, place: usize) -> Result<(), NoMemory> {
        if place < self.met.len() && !self.met[place] {
            self.met[place] = true;
            self.way.push((place, 0))?;
        }
        Ok(())
    }

    /// Goes on at the next successor of the last place, or leaves that place. False where there is none.
    fn step(&mut self, graph: &Graph) -> Result<bool, NoMemory> {
        let Some((place, next)) = self.way.pop() else {
            return Ok(false);
        };
        match graph.row(place).get(next) {
            Some(successor) => {
                self.way.push((place, next + 1))?;
                self.enter(*successor)?;
            }
            None => self.order.push(place)?,
        }
        Ok(true)
    }

    /// Walks from a place until there is no step.
    fn walk(&mut self, graph: &Graph, start: usize) -> Result<(), NoMemory> {
        self.enter(start)?;
        'steps: for _ in 0..u64::MAX {
            if !self.step(graph)? {
                break;
            }
        }
        Ok(())
    }
}

/// All places in an order in which each comes behind its successors, but where walks lead in circles. No contract says
/// so, and none asks for it: it saves time.
pub fn successors_first(alloc: Global, graph: &Graph) -> Result<Vec<usize>, NoMemory> {
    let mut descent = Descent {
        met: vec![in alloc; false; graph.count()]?,
        way: Vec::new(alloc),
        order: Vec::new(alloc),
    };
    'places: for place in 0..graph.count() {
        descent.walk(graph, place)?;
    }
    let Descent {
        met: _,
        way: _,
        order,
    } = descent;
    Ok(order)
}

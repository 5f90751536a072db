ghost use Rattle.std.specs.Prelude.{◌≡◌, ◌++◌, ◌∷◌, [], IfOk, OnOk, MatchOption, length, fold};
ghost use Rattle.graph.specs.Reaching.{IsReached, IsReachedPast, AreMarks};
ghost use Rattle.graph.specs.Walks.{begun, meet, passed};

use crate::places::is_marked;
use crate::rows::Graph;
use spv_base::NoMemory;
use std::alloc::Global;
use std::marker::Model;

/// A walk that is under way: which places it has met, and those of them whose rows it has not looked at.
#[derive(Drop)]
struct Walk {
    met: Vec<bool>,
    waiting: Vec<usize>,
}

impl Model for Walk {
    ghost use Rattle.graph.specs.Walks.{Going};

    ghost Value = { Going };

    ghost view = { λ walk. record { met = walk.met.items; waiting = walk.waiting.items } };
}

impl Walk {
    /// The walk that has met no place.
    fn new(alloc: Global, count: usize) -> Result<Walk, NoMemory>
        ensures { IfOk result (λ walk. walk ≡ begun count) }
    {
        Ok(Walk {
            met: vec![in alloc; false; count]?,
            waiting: Vec::new(alloc),
        })
    }

    /// Meets a place, unless it is met or is none.
    fn meet(&mut self, place: usize) -> Result<(), NoMemory>
        ensures { OnOk result (self.new ≡ meet self.old place) }
    {
        if place < self.met.len() && !self.met[place] {
            self.met[place] = true;
            self.waiting.push(place)?;
        }
        Ok(())
    }

    /// Meets the places of a list, one after the other.
    fn meet_all(&mut self, places: &[usize]) -> Result<(), NoMemory>
        ensures { OnOk result (self.new ≡ fold meet self.old places.now) }
    {
        'places: for place in places {
            self.meet(*place)?;
        }
        Ok(())
    }

    /// Looks at the row of a place that may be passed.
    fn pass(&mut self, graph: &Graph, passable: &[bool], place: usize) -> Result<(), NoMemory>
        ensures { OnOk result (self.new ≡ passed graph.now passable.now self.old place) }
    {
        if is_marked(passable, place) {
            self.meet_all(graph.row(place))?;
        }
        Ok(())
    }

    /// The next place whose row is to be looked at.
    fn next(&mut self) -> Option<usize>
        ensures met { self.new.met ≡ self.old.met }
        ensures waiting { MatchOption result (self.old.waiting ≡ []) (λ place. self.old.waiting ≡ self.new.waiting ++ place ∷ []) }
    {
        self.waiting.pop()
    }

    /// The marks of the places that are met.
    fn into_met(self) -> Vec<bool>
        ensures { result.items ≡ self.met }
    {
        let Walk { met, waiting: _ } = self;
        met
    }
}

/// Marks each place that a walk reaches from one of the starts, where a walk goes on only from places that are
/// passable: one mark for each place of the graph. A start that is not passable is reached, and leads nowhere.
/// A number past the last place is no place, as a start too; one past the end of `passable` is not passable.
pub fn reach(
    alloc: Global,
    graph: &Graph,
    starts: &[usize],
    passable: &[bool],
) -> Result<Vec<bool>, NoMemory>
    ensures { IfOk result (λ marks. AreMarks (length graph.now) (IsReachedPast graph.now starts.now passable.now) marks.items) }
{
    let mut walk = Walk::new(alloc, graph.count())?;
    walk.meet_all(starts)?;
    'places: while let Some(place) = walk.next() {
        walk.pass(graph, passable, place)?;
    }
    Ok(walk.into_met())
}

/// Marks each place that a walk reaches from one of the starts: one mark for each place of the graph.
pub fn reach_all(alloc: Global, graph: &Graph, starts: &[usize]) -> Result<Vec<bool>, NoMemory>
    ensures { IfOk result (λ marks. AreMarks (length graph.now) (IsReached graph.now starts.now) marks.items) }
{
    let passable = vec![in alloc; true; graph.count()]?;
    reach(alloc, graph, starts, &passable)
}

ghost use Rattle.std.specs.Prelude.{◌≡◌, ◌++◌, ◌∷◌, [], IfOk, OnOk, MatchOption, fold, length};
ghost use Rattle.graph.specs.Reaching.{IsReached, AreMarks};
ghost use Rattle.graph.specs.Walks.{meet};
ghost use Rattle.spv_calls.specs.Kept.{IsFresh, IsKnown, IsUnmarked, going};

use graph::{Graph, NoMemory};
use std::alloc::Global;

/// Searches along calls, one after the other. Between two of them nothing is met, so that a search takes no more time
/// than what it reaches.
#[derive(Debug, Drop)]
pub struct Search {
    met: Vec<bool>,
    /// The places that are met and whose rows were not looked at.
    waiting: Vec<usize>,
    /// The places that are met.
    reached: Vec<usize>,
}

/// Takes the mark from a place.
fn unmark_one(met: &mut Vec<bool>, place: usize)
    ensures { IsUnmarked met.old.items met.new.items (place ∷ []) }
{
    if place < met.len() {
        met[place] = false;
    }
}

/// Takes the marks from places.
fn unmark(met: &mut Vec<bool>, places: &[usize])
    ensures { IsUnmarked met.old.items met.new.items places.now }
{
    'places: for place in places {
        unmark_one(met, *place);
    }
}

impl Search {
    /// Nothing is met of so many places.
    pub fn new(alloc: Global, count: usize) -> Result<Search, NoMemory>
        ensures { IfOk result (λ search. IsFresh count search) }
    {
        Ok(Search {
            met: vec![in alloc; false; count]?,
            waiting: Vec::new(alloc),
            reached: Vec::new(alloc),
        })
    }

    /// The places that the last search reached.
    pub fn reached(&self) -> &[usize]
        ensures { result.now ≡ self.now.reached.items }
    {
        &self.reached
    }

    /// Meets a place, unless it is met or is none.
    fn meet(&mut self, place: usize) -> Result<(), NoMemory>
        ensures going { OnOk result (going self.new ≡ meet (going self.old) place) }
        ensures known { OnOk result (IsKnown self.old → IsKnown self.new) }
    {
        if place < self.met.len() && !self.met[place] {
            self.met[place] = true;
            self.waiting.push(place)?;
            self.reached.push(place)?;
        }
        Ok(())
    }

    /// Meets the places of a list, one after the other.
    fn meet_all(&mut self, places: &[usize]) -> Result<(), NoMemory>
        ensures going { OnOk result (going self.new ≡ fold meet (going self.old) places.now) }
        ensures known { OnOk result (IsKnown self.old → IsKnown self.new) }
    {
        'places: for place in places {
            self.meet(*place)?;
        }
        Ok(())
    }

    /// The next place whose row is to be looked at.
    fn next(&mut self) -> Option<usize>
        ensures met { self.new.met.items ≡ self.old.met.items }
        ensures reached { self.new.reached.items ≡ self.old.reached.items }
        ensures waiting { MatchOption result (self.old.waiting.items ≡ []) (λ place. self.old.waiting.items ≡ self.new.waiting.items ++ place ∷ []) }
    {
        self.waiting.pop()
    }

    /// Reaches all that a walk from a place leads to, and the place itself. Nothing is met before.
    pub fn run(&mut self, graph: &Graph, start: usize) -> Result<(), NoMemory>
        requires { IsFresh (length graph.now) self.old }
        ensures met { OnOk result (AreMarks (length graph.now) (IsReached graph.now (start ∷ [])) self.new.met.items) }
        ensures known { OnOk result (IsKnown self.new) }
    {
        self.meet(start)?;
        'places: while let Some(place) = self.next() {
            self.meet_all(graph.row(place))?;
        }
        Ok(())
    }

    /// Forgets what was met.
    pub fn clear(&mut self)
        requires { IsKnown self.old }
        ensures { IsFresh (length self.old.met.items) self.new }
    {
        unmark(&mut self.met, &self.reached);
        self.reached.clear();
        self.waiting.clear();
    }
}

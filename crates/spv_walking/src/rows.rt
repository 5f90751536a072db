pub use crate::seen::Level;
use crate::seen::{Seen, is_exit_by, leaves_loop_by};
use spv_base::NoMemory;
use spv_blocks::{Construct, End};
use std::alloc::Global;
use std::marker::Model;

/// The innermost construct round a place, and what is kept of its context.
#[derive(Clone, Copy, Debug)]
pub(crate) struct Row {
    /// The place outside that construct.
    outer: usize,
    /// The construct; none outside all constructs.
    level: Option<Level>,
    seen: Seen,
    /// How many constructs lie round the place.
    depth: usize,
}

/// The contexts of places, which are numbers from 0: place 0 is outside all constructs. Each of them is kept as its
/// innermost construct and the place outside it.
#[derive(Debug, Drop)]
pub struct Rows {
    rows: Vec<Row>,
}

impl Model for Rows {
    ghost use Rattle.std.specs.Prelude.{List};
    ghost use Rattle.spv_walk.specs.Contexts.{Context};

    ghost Value = { List Context };

    ghost use Rattle.spv_walking.specs.Contexts.{contexts_of, AreKept};

    ghost view = { λ rows. contexts_of rows.rows.items };

    ghost invariant = { λ rows. AreKept rows.rows.items };
}

impl Rows {
    ghost use Rattle.std.specs.Prelude.{◌≡◌, ◌<◌, ◌∷◌, ◌++◌, [], length, IfOk, OnOk, OnErr};
    ghost use Rattle.std.specs.Option.{option_map};
    ghost use Rattle.spv_blocks.specs.Seen.{seen_end, seen_construct};
    ghost use Rattle.spv_walk.specs.Contexts.{behind, is_exit as exit_in, in_next as next_in, leaves_loop as loop_left};
    ghost use Rattle.spv_walk.specs.Rows.{innermost};
    ghost use Rattle.spv_walking.specs.Kept.{level_of};
    ghost use Rattle.spv_walking.specs.Contexts.{Keeps};
    ghost use Rattle.spv_walking.specs.Places.{context_at, outer_of};

    /// The place outside all constructs alone.
    pub fn new(alloc: Global) -> Result<Rows, NoMemory>
        ensures { IfOk result (λ rows. rows ≡ [] ∷ []) }
    {
        let mut rows = Vec::new(alloc);
        rows.push(Row {
            outer: 0,
            level: None,
            seen: Seen::outside(),
            depth: 0,
        })?;
        Ok(Rows { rows })
    }

    /// The number of places.
    pub fn count(&self) -> usize
        ensures { result ≡ length self.now }
    {
        self.rows.len()
    }

    /// What is kept of the context of a place.
    fn row(&self, place: usize) -> Row
        requires { place < length self.now }
        ensures { Keeps self.now place result (context_at self.now place) }
    {
        self.rows[place]
    }

    /// Adds the place in one more construct than another place, and gives its number. Where memory is wanting there
    /// is no further place.
    pub fn push(&mut self, outer: usize, level: Level) -> Result<usize, NoMemory>
        requires { outer < length self.old }
        ensures place { IfOk result (λ place. place ≡ length self.old) }
        ensures ok { OnOk result (self.new ≡ self.old ++ (level_of level ∷ context_at self.old outer) ∷ []) }
        ensures err { OnErr result (self.new ≡ self.old) }
    {
        let place = self.rows.len();
        let row = self.row(outer);
        self.rows.push(Row {
            outer,
            level: Some(level),
            seen: row.seen.within(level),
            depth: row.depth + 1,
        })?;
        Ok(place)
    }

    /// The innermost construct round a place.
    pub fn level(&self, place: usize) -> Option<Level>
        requires { place < length self.now }
        ensures { option_map level_of result ≡ innermost (context_at self.now place) }
    {
        self.row(place).level
    }

    /// The place outside the innermost construct round a place; place 0 of itself.
    pub fn outer(&self, place: usize) -> usize
        requires { place < length self.now }
        ensures within { result < length self.now }
        ensures context { context_at self.now result ≡ outer_of (context_at self.now place) }
    {
        self.row(place).outer
    }

    /// How many constructs lie round a place.
    pub fn depth(&self, place: usize) -> usize
        requires { place < length self.now }
        ensures { result ≡ length (context_at self.now place) }
    {
        self.row(place).depth
    }

    /// How many constructs lie round the place behind the merge instruction of a block at a place, on the way to the target
    /// of its terminator.
    #[tactic(auto, using(crate::proofs::GreatestDepth::length_behind))]
    pub fn depth_behind(
        &self,
        place: usize,
        construct: Option<Construct>,
        header: u32,
        target: u32,
    ) -> usize
        requires { place < length self.now }
        ensures { result ≡ length (behind (option_map seen_construct construct) header target (context_at self.now place)) }
    {
        // there are fewer constructs round a place than places, so that one more can be counted
        let _places = self.count();
        let row = self.row(place);
        match construct {
            None => row.depth,
            Some(_) => row.depth + 1,
        }
    }

    /// Whether a place is in a continue part.
    pub fn in_next(&self, place: usize) -> bool
        requires { place < length self.now }
        ensures { result ≡ next_in (context_at self.now place) }
    {
        self.row(place).seen.in_next
    }

    /// Whether the target is the merge block or the continue target of the innermost loop, where the place is in its
    /// header or body.
    pub fn leaves_loop(&self, place: usize, target: u32) -> bool
        requires { place < length self.now }
        ensures { result ≡ loop_left (context_at self.now place) target }
    {
        leaves_loop_by(self.row(place).seen, target)
    }

    /// Whether a branch to the target, by a terminator at a place, leaves a construct round the place.
    pub fn is_exit(&self, place: usize, end: &End, target: u32) -> bool
        requires { place < length self.now }
        ensures { result ≡ exit_in (context_at self.now place) (seen_end end.now) target }
    {
        let row = self.row(place);
        is_exit_by(row.level, row.seen, end, target)
    }

    /// The same at the place in one more construct.
    pub fn is_exit_within(&self, place: usize, level: Level, end: &End, target: u32) -> bool
        requires { place < length self.now }
        ensures { result ≡ exit_in (level_of level ∷ context_at self.now place) (seen_end end.now) target }
    {
        let row = self.row(place);
        is_exit_by(Some(level), row.seen.within(level), end, target)
    }

    /// The same behind the merge instruction of a block at the place, on the way to the target of its terminator.
    pub fn is_exit_behind(
        &self,
        place: usize,
        construct: Option<Construct>,
        header: u32,
        end: &End,
        target: u32,
    ) -> bool
        requires { place < length self.now }
        ensures { result ≡ exit_in (behind (option_map seen_construct construct) header target (context_at self.now place)) (seen_end end.now) target }
    {
        match construct {
            None => self.is_exit(place, end, target),
            Some(Construct::Selection(merge)) => {
                self.is_exit_within(place, Level::Selection(merge), end, target)
            }
            Some(Construct::Switch(merge)) => {
                self.is_exit_within(place, Level::Arm(header, merge, target), end, target)
            }
            Some(Construct::Loop(merge, next)) => {
                self.is_exit_within(place, Level::Body(header, merge, next), end, target)
            }
        }
    }
}

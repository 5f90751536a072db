ghost use Rattle.std.specs.Prelude.{◌≡◌, ℕ, ◌<◌, length, Some};
ghost use Rattle.spv_blocks.specs.Tables.{found};

use crate::rows::{Level, Rows};
use spv_base::NoMemory;
use spv_blocks::{Construct, End, Labels, Table};
use std::alloc::Global;

/// The blocks that a walk through a function has come to, each with the place of its context.
#[derive(Drop)]
pub struct Walked {
    rows: Rows,
    /// The place of the context of a block, by its label.
    places: Table,
    ghost within: { (label place : ℕ) → found places label ≡ Some place → place < length rows },
}

impl Walked {
    ghost use Rattle.std.specs.Prelude.{◌≡◌, ℕ, ◌<◌, ◌∷◌, ◌++◌, [], ◌&&◌, ◌||◌, not, length, None, IfOk, OnOk, IfSome};
    ghost use Rattle.spv_blocks.specs.Tables.{found};
    ghost use Rattle.std.specs.Option.{option_map};
    ghost use Rattle.spv_blocks.specs.Places.{KeepsPlace};
    ghost use Rattle.spv_blocks.specs.Seen.{seen_end, seen_construct};
    ghost use Rattle.spv_walking.specs.Kept.{level_of};
    ghost use Rattle.spv_walking.specs.Places.{context_at};
    ghost use Rattle.spv_walking.specs.Onward.{shared as shared_in, arm as arm_in, may_enter as may_enter_in};
    ghost use Rattle.spv_walking.specs.Table.{context_of, Widens};

    /// No block, and the place outside all constructs.
    pub(crate) fn new(alloc: Global, labels: &Labels) -> Result<Walked, NoMemory>
        ensures rows { IfOk result (λ walked. walked.rows ≡ [] ∷ []) }
        ensures none { IfOk result (λ walked. (label : ℕ) → found walked.places label ≡ None) }
    {
        Ok(Walked {
            rows: Rows::new(alloc)?,
            places: Table::beside(alloc, labels)?,
        })
    }

    /// The place of the context of a block, by its label; none where the walk does not come to it.
    pub fn place(&self, label: u32) -> Option<usize>
        ensures is { result ≡ found self.now.places label }
        ensures context { option_map (context_at self.now.rows) result ≡ context_of self.now label }
        ensures within { IfSome result (λ place. place < length self.now.rows) }
    {
        self.places.get(label)
    }

    /// The contexts.
    pub fn rows(&self) -> &Rows
        ensures { result.now ≡ self.now.rows }
    {
        &self.rows
    }

    /// Adds a block that the walk has not come to.
    pub(crate) fn add(&mut self, label: u32, place: usize) -> Result<(), NoMemory>
        requires new { found self.old.places label ≡ None }
        requires within { place < length self.old.rows }
        ensures rows { OnOk result (self.new.rows ≡ self.old.rows) }
        ensures places { OnOk result (KeepsPlace self.old.places self.new.places place label) }
    {
        self.places.put(label, place)?;
        Ok(())
    }

    /// Adds the place in one more construct than another place.
    pub(crate) fn push(&mut self, outer: usize, level: Level) -> Result<usize, NoMemory>
        requires { outer < length self.old.rows }
        ensures { IfOk result (λ place. Widens self.old self.new place (level_of level ∷ context_at self.old.rows outer)) }
    {
        self.rows.push(outer, level)
    }

    /// The place behind the merge instruction of a block, on the way to each of its targets; of a switch, whose targets
    /// are places of their own, the place of the block.
    pub(crate) fn shared(
        &mut self,
        construct: Option<Construct>,
        header: u32,
        place: usize,
    ) -> Result<usize, NoMemory>
        requires { place < length self.old.rows }
        ensures { IfOk result (λ inner. Widens self.old self.new inner (shared_in (option_map seen_construct construct) header (context_at self.old.rows place))) }
    {
        match construct {
            None | Some(Construct::Switch(_)) => Ok(place),
            Some(Construct::Selection(merge)) => self.push(place, Level::Selection(merge)),
            Some(Construct::Loop(merge, next)) => {
                self.push(place, Level::Body(header, merge, next))
            }
        }
    }

    /// The place on the way to one of the targets, from the one that they share.
    pub(crate) fn arm(
        &mut self,
        construct: Option<Construct>,
        header: u32,
        target: u32,
        shared: usize,
    ) -> Result<usize, NoMemory>
        requires { shared < length self.old.rows }
        ensures { IfOk result (λ inner. Widens self.old self.new inner (arm_in (option_map seen_construct construct) header target (context_at self.old.rows shared))) }
    {
        match construct {
            Some(Construct::Switch(merge)) => {
                self.push(shared, Level::Arm(header, merge, target))
            }
            _ => Ok(shared),
        }
    }

    /// Whether the walk comes from a block to a target of its terminator, at the place on the way there.
    pub(crate) fn may_enter(
        &self,
        labels: &Labels,
        enterers: &Table<u32>,
        header: u32,
        end: &End,
        inner: usize,
        target: u32,
    ) -> bool
        requires { inner < length self.now.rows }
        ensures { result ≡ may_enter_in labels.now (found enterers.now) header (seen_end end.now) (context_at self.now.rows inner) target }
    {
        !self.rows.is_exit(inner, end, target)
            && self.admits(labels, enterers, header, inner, target)
    }
}

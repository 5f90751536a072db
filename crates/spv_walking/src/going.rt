ghost use Rattle.std.specs.Prelude.{◌≡◌};
ghost use Rattle.std.specs.Option.{option_map};
ghost use Rattle.spv_blocks.specs.Blocks.{merge_of as merge_in};
ghost use Rattle.spv_blocks.specs.Seen.{seen_construct};

use crate::rows::Level;
use crate::walked::Walked;
use spv_base::NoMemory;
use spv_blocks::{Block, Construct, Labels, Table};

/// A walk that is under way: the blocks that it has come to, and those of them that it has not gone on from.
#[derive(Drop)]
pub(crate) struct Going {
    pub(crate) walked: Walked,
    pub(crate) waiting: Vec<u32>,
}

/// The merge block of a construct.
fn merge_of(construct: Option<Construct>) -> Option<u32>
    ensures { result ≡ merge_in (option_map seen_construct construct) }
{
    match construct {
        None => None,
        Some(Construct::Selection(merge) | Construct::Switch(merge) | Construct::Loop(merge, _)) =>
            Some(merge),
    }
}

impl Going {
    ghost use Rattle.std.specs.Prelude.{◌≡◌, ℕ, ◌<◌, ◌∷◌, ◌++◌, [], length, OnOk, MatchOption};
    ghost use Rattle.spv_blocks.specs.Tables.{found};
    ghost use Rattle.spv_blocks.specs.Blocks.{end_targets};
    ghost use Rattle.spv_blocks.specs.Seen.{seen_block};
    ghost use Rattle.spv_walking.specs.Places.{context_at};
    ghost use Rattle.spv_walking.specs.Onward.{Goes, GoesTarget, GoesNext, GoesMerge, GoesOn};
    ghost use Rattle.spv_walking.specs.Steps.{Visits, Comes, OnwardFrom};

    /// Comes to a block, unless the walk has.
    pub(crate) fn visit(&mut self, label: u32, place: usize) -> Result<(), NoMemory>
        requires { place < length self.old.walked.rows }
        ensures { OnOk result (Visits self.old self.new label place) }
    {
        if self.walked.place(label).is_none() {
            self.walked.add(label, place)?;
            self.waiting.push(label)?;
        }
        Ok(())
    }

    /// The next block to go on from.
    pub(crate) fn next(&mut self) -> Option<u32>
        ensures walked { self.new.walked ≡ self.old.walked }
        ensures waiting { MatchOption result (self.old.waiting.items ≡ []) (λ label. self.old.waiting.items ≡ self.new.waiting.items ++ label ∷ []) }
    {
        self.waiting.pop()
    }

    /// Comes to a target of a block, if it is walked to; `shared` is the place that the targets share.
    fn enter(
        &mut self,
        labels: &Labels,
        enterers: &Table<u32>,
        header: u32,
        block: &Block,
        shared: usize,
        target: u32,
    ) -> Result<(), NoMemory>
        requires { shared < length self.old.walked.rows }
        ensures { OnOk result (Comes labels.now self.old self.new (Goes labels.now (found enterers.now) header (seen_block block.now) (context_at self.old.walked.rows shared) (target ∷ []))) }
    {
        let inner = self.walked.arm(block.construct(), header, target, shared)?;
        if self
            .walked
            .may_enter(labels, enterers, header, &block.end, inner, target)
        {
            self.visit(target, inner)
        } else {
            Ok(())
        }
    }

    /// Comes to each target of a block that is walked to; `shared` is the place that the targets share.
    fn enter_all(
        &mut self,
        labels: &Labels,
        enterers: &Table<u32>,
        header: u32,
        block: &Block,
        shared: usize,
    ) -> Result<(), NoMemory>
        requires { shared < length self.old.walked.rows }
        ensures { OnOk result (Comes labels.now self.old self.new (Goes labels.now (found enterers.now) header (seen_block block.now) (context_at self.old.walked.rows shared) (end_targets (seen_block block.now).end))) }
    {
        'targets: for k in 0..block.target_count() {
            self.enter(labels, enterers, header, block, shared, block.target(k))?;
        }
        Ok(())
    }

    /// Comes to the continue target of a loop, if it may be walked to.
    fn enter_next(
        &mut self,
        labels: &Labels,
        header: u32,
        block: &Block,
        place: usize,
    ) -> Result<(), NoMemory>
        requires { place < length self.old.walked.rows }
        ensures { OnOk result (Comes labels.now self.old self.new (GoesNext labels.now header (seen_block block.now) (context_at self.old.walked.rows place))) }
    {
        match block.construct() {
            Some(Construct::Loop(merge, next)) => {
                if labels.is_role(header, next) {
                    let inner = self.walked.push(place, Level::Next(header, merge))?;
                    self.visit(next, inner)
                } else {
                    Ok(())
                }
            }
            Some(Construct::Selection(_)) => Ok(()),
            Some(Construct::Switch(_)) => Ok(()),
            None => Ok(()),
        }
    }

    /// Comes to the merge block of a construct, if it may be walked to.
    fn enter_merge(
        &mut self,
        labels: &Labels,
        header: u32,
        block: &Block,
        place: usize,
    ) -> Result<(), NoMemory>
        requires { place < length self.old.walked.rows }
        ensures { OnOk result (Comes labels.now self.old self.new (GoesMerge labels.now header (seen_block block.now) (context_at self.old.walked.rows place))) }
    {
        match merge_of(block.construct()) {
            Some(merge) if labels.is_role(header, merge) => self.visit(merge, place),
            _ => Ok(()),
        }
    }

    /// Comes to each target of a block that is walked to.
    fn enter_targets(
        &mut self,
        labels: &Labels,
        enterers: &Table<u32>,
        header: u32,
        block: &Block,
        place: usize,
    ) -> Result<(), NoMemory>
        requires { place < length self.old.walked.rows }
        ensures { OnOk result (Comes labels.now self.old self.new (GoesTarget labels.now (found enterers.now) header (seen_block block.now) (context_at self.old.walked.rows place))) }
    {
        let shared = self.walked.shared(block.construct(), header, place)?;
        self.enter_all(labels, enterers, header, block, shared)
    }

    /// Comes to what is walked directly behind a block at a place, which is no header that is its own continue target.
    fn go_on(
        &mut self,
        labels: &Labels,
        enterers: &Table<u32>,
        header: u32,
        block: &Block,
        place: usize,
    ) -> Result<(), NoMemory>
        requires { place < length self.old.walked.rows }
        ensures { OnOk result (Comes labels.now self.old self.new (GoesOn labels.now (found enterers.now) header (seen_block block.now) (context_at self.old.walked.rows place))) }
    {
        self.enter_targets(labels, enterers, header, block, place)?;
        self.enter_next(labels, header, block, place)?;
        self.enter_merge(labels, header, block, place)
    }

    /// Comes to what is walked directly behind a block.
    pub(crate) fn turn(
        &mut self,
        labels: &Labels,
        enterers: &Table<u32>,
        label: u32,
    ) -> Result<(), NoMemory>
        ensures { OnOk result (Comes labels.now self.old self.new (OnwardFrom labels.now (found enterers.now) self.old.walked label)) }
    {
        if labels.stops(label) {
            return Ok(());
        }
        match (labels.block(label), self.walked.place(label)) {
            (Some(block), Some(place)) => { self.go_on(labels, enterers, label, block, place) }
            (None, _) => Ok(()),
            (_, None) => Ok(()),
        }
    }
}

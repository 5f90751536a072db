ghost use Rattle.std.specs.Prelude.{◌≡◌, ◌==◌, not, map, filter, IfOk, OnOk, MatchBool, true, ℕ};
ghost use Rattle.spv_blocks.specs.Tables.{found};
ghost use Rattle.spv_blocks.specs.Blocks.{has, branches, construct, is_switch as is_switch_in, targets};
ghost use Rattle.spv_blocks.specs.Places.{is_free};
ghost use Rattle.spv_walk.specs.Tables.{is_back_by};
ghost use Rattle.spv_entering.specs.Cases.{is_other, stays, AreInside, Leaves, FindsOnly, HasOther, AllAre, FindsEnterer};
ghost use Rattle.spv_entering.specs.Flow.{before};
ghost use Rattle.spv_entering.specs.Tops.{AreTops};
ghost use Rattle.spv_entering.specs.Steps.{AreSteps};

use crate::flow::Flow;
use graph::{Graph, is_marked, reach_all};
use spv_base::NoMemory;
use spv_blocks::{Construct, Labels, Table};
use std::alloc::Global;

/// What is known of a function before its labels are looked at one by one.
#[derive(Drop)]
pub(crate) struct Known<'t, 'a, 'f> {
    pub(crate) flow: Flow<'a, 'f>,
    /// The loop at the top of whose continue part each block stands.
    pub(crate) tops: &'t Table<u32>,
    /// The steps from block to block.
    pub(crate) steps: Graph,
}

/// Whether a list has another number.
fn has_other(list: &[u32], number: u32) -> bool
    ensures { MatchBool result (HasOther list.now number) (AllAre list.now number) }
{
    'each: for other in list {
        if *other != number {
            return true;
        }
    }
    false
}

/// The number that is alone in a list, if more than once too.
fn only_of(list: &[u32]) -> Option<u32>
    ensures { FindsOnly list.now result }
{
    match list {
        [first, ..] if !has_other(list, *first) => Some(*first),
        _ => None,
    }
}

/// The labels other than one that no merge instruction names.
fn others(alloc: Global, labels: &Labels, targets: &[u32], t: u32) -> Result<Vec<u32>, NoMemory>
    ensures { IfOk result (λ others. others.items ≡ filter (is_other labels.now t) targets.now) }
{
    let mut others = Vec::new(alloc);
    'targets: for target in targets {
        if *target != t && labels.named(*target) == 0 {
            others.push(*target)?;
        }
    }
    Ok(others)
}

/// Those of some blocks that are the header of a switch or are not marked.
fn staying(
    alloc: Global,
    labels: &Labels,
    blocks: &[u32],
    s: u32,
    marks: &[bool],
) -> Result<Vec<u32>, NoMemory>
    ensures { IfOk result (λ left. left.items ≡ filter (stays labels.now s marks.now) blocks.now) }
{
    let mut left = Vec::new(alloc);
    'each: for p in blocks {
        if *p == s || !is_marked(marks, labels.number(*p)) {
            left.push(*p)?;
        }
    }
    Ok(left)
}

/// Those of some blocks from which a branch to a label is no back edge, by a table of tops.
fn no_back(
    alloc: Global,
    flow: &Flow,
    tops: &Table<u32>,
    t: u32,
    blocks: &[u32],
) -> Result<Vec<u32>, NoMemory>
    ensures { IfOk result (λ left. left.items ≡ filter (λ p. not (is_back_by flow.now.code (found tops.now) t p)) blocks.now) }
{
    let mut left = Vec::new(alloc);
    'each: for p in blocks {
        if !flow.is_back(tops, t, *p) {
            left.push(*p)?;
        }
    }
    Ok(left)
}

/// Whether a block is the header of a switch.
fn is_switch(labels: &Labels, s: u32) -> bool
    ensures { result ≡ is_switch_in (construct labels.now s) }
{
    match labels.construct(s) {
        Some(Construct::Switch(_)) => true,
        _ => false,
    }
}

impl<'t, 'a, 'f> Known<'t, 'a, 'f> {
    ghost use Rattle.std.specs.Prelude.{◌≡◌, not, filter, IfOk, OnOk, true, ℕ};
    ghost use Rattle.spv_blocks.specs.Tables.{found};
    ghost use Rattle.spv_blocks.specs.Blocks.{has, branches, construct, is_switch as is_switch_in};
    ghost use Rattle.spv_blocks.specs.Places.{is_free};
    ghost use Rattle.spv_walk.specs.Tables.{is_back_by};
    ghost use Rattle.spv_entering.specs.Cases.{AreInside, Leaves, FindsEnterer};
    ghost use Rattle.spv_entering.specs.Steps.{AreSteps};
    ghost use Rattle.spv_entering.specs.Tops.{AreTops};
    ghost use Rattle.spv_entering.specs.Flow.{before};

    /// The blocks before a label, but for its back edges.
    fn left(&self, alloc: Global, t: u32) -> Result<Vec<u32>, NoMemory>
        ensures { IfOk result (λ left. left.items ≡ filter (λ p. not (is_back_by self.now.flow.code (found self.now.tops.now) t p)) (before self.now.flow t)) }
    {
        no_back(alloc, &self.flow, self.tops, t, self.flow.before(t))
    }

    /// Marks what is reached from the cases of a switch other than one.
    fn inside(&self, alloc: Global, s: u32, t: u32) -> Result<Vec<bool>, NoMemory>
        requires steps { AreSteps self.now.flow.code self.now.steps }
        requires switch { is_switch_in (construct self.now.flow.code s) ≡ true }
        ensures { IfOk result (λ marks. AreInside self.now.flow.code s t marks.items) }
    {
        let labels = self.flow.labels();
        let others = others(alloc, labels, &self.flow.targets(alloc, s)?, t)?;
        reach_all(alloc, &self.steps, &labels.numbers(alloc, &others)?)
    }

    /// Takes away the blocks that fall to a label from another case of a switch.
    fn take_falls(&self, alloc: Global, t: u32, s: u32, left: &mut Vec<u32>) -> Result<(), NoMemory>
        requires steps { AreSteps self.now.flow.code self.now.steps }
        requires free { is_free self.now.flow.code t ≡ true }
        requires header { branches self.now.flow.code s t ≡ true }
        requires before { (p : ℕ) → has left.old.items p ≡ true → branches self.now.flow.code p t ≡ true }
        ensures { OnOk result (Leaves self.now.flow.code s t left.old.items left.new.items) }
    {
        let labels = self.flow.labels();
        if !is_switch(labels, s) || !has_other(left, s) {
            return Ok(());
        }
        let marks = self.inside(alloc, s, t)?;
        *left = staying(alloc, labels, left, s, &marks)?;
        Ok(())
    }

    /// The block from which a label may be entered.
    pub(crate) fn enterer(&self, alloc: Global, t: u32) -> Result<Option<u32>, NoMemory>
        requires steps { AreSteps self.now.flow.code self.now.steps }
        requires tops { AreTops self.now.flow.code (found self.now.tops.now) }
        ensures { IfOk result (λ enterer. FindsEnterer self.now.flow.code t enterer) }
    {
        if !self.flow.labels().is_free(t) {
            return Ok(None);
        }
        let mut left = self.left(alloc, t)?;
        'switches: for s in self.flow.before(t) {
            self.take_falls(alloc, t, *s, &mut left)?;
        }
        Ok(only_of(&left))
    }
}

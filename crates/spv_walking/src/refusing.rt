ghost use Rattle.std.specs.Prelude.{◌≡◌};
ghost use Rattle.spv_walking.specs.Least.{lesser as lesser_of};

use crate::walked::Walked;
use spv_base::{NoMemory, Refusal};
use spv_blocks::{Block, Labels, Table};
use std::alloc::Global;

/// BadTarget: a branch to what may not be walked to from there.
pub(crate) const BAD_TARGET: u16 = 402;
/// CaseFall: a branch to another case of a switch.
const CASE_FALL: u16 = 404;

/// The lesser of two rules, if there is one.
fn lesser(one: Option<u16>, other: Option<u16>) -> Option<u16>
    ensures { result ≡ lesser_of one other }
{
    match (one, other) {
        (Some(one), Some(other)) => Some(one.min(other)),
        (Some(one), None) => Some(one),
        (None, other) => other,
    }
}

impl Walked {
    ghost use Rattle.std.specs.Prelude.{◌≡◌, ◌<◌, true, false, length, Some, IfOk};
    ghost use Rattle.spv_blocks.specs.Tables.{found};
    ghost use Rattle.spv_module.specs.First.{here, least, first};
    ghost use Rattle.spv_blocks.specs.Blocks.{block as block_in, branches as branches_in, end_targets, has, stops as stops_in, targets as targets_in};
    ghost use Rattle.spv_blocks.specs.Seen.{seen_block};
    ghost use Rattle.spv_walk.specs.Walked.{admits as admits_in};
    ghost use Rattle.spv_walk.specs.Rules.{end_at};
    ghost use Rattle.spv_walk.specs.Found.{refuses as refuses_in, target_rules, all_target_rules};
    ghost use Rattle.spv_walking.specs.Places.{context_at};

    /// Whether a target that is no exit is walked to from a block at a place: it is a header that is its own continue
    /// target and begins no other case, or is entered from the block.
    pub(crate) fn admits(
        &self,
        labels: &Labels,
        enterers: &Table<u32>,
        label: u32,
        place: usize,
        target: u32,
    ) -> bool
        requires { place < length self.now.rows }
        ensures { result ≡ admits_in labels.now (found enterers.now) label (context_at self.now.rows place) target }
    {
        (labels.stops(target) && !self.is_fall(labels, place, target))
            || enterers.get(target) == Some(label)
    }

    /// Whether a target of a block at a place is no exit, and is not walked to.
    fn refuses(
        &self,
        labels: &Labels,
        enterers: &Table<u32>,
        label: u32,
        block: &Block,
        place: usize,
        target: u32,
    ) -> bool
        requires here { block_in labels.now label ≡ Some (seen_block block.now) }
        requires runs { stops_in labels.now label ≡ false }
        requires branch { branches_in labels.now label target ≡ true }
        requires within { place < length self.now.rows }
        ensures { result ≡ refuses_in labels.now (found enterers.now) label (context_at self.now.rows place) target }
    {
        !self
            .rows()
            .is_exit_behind(place, block.construct(), label, &block.end, target)
            && !self.admits(labels, enterers, label, place, target)
    }

    /// The rule that is broken at a target of a block at a place.
    fn target_rule(
        &self,
        labels: &Labels,
        enterers: &Table<u32>,
        label: u32,
        block: &Block,
        place: usize,
        target: u32,
    ) -> Option<u16>
        requires here { block_in labels.now label ≡ Some (seen_block block.now) }
        requires runs { stops_in labels.now label ≡ false }
        requires branch { branches_in labels.now label target ≡ true }
        requires within { place < length self.now.rows }
        ensures { result ≡ least (target_rules labels.now (found enterers.now) label (context_at self.now.rows place) target) }
    {
        if !self.refuses(labels, enterers, label, block, place, target) {
            None
        } else if self.is_fall(labels, place, target) {
            Some(CASE_FALL)
        } else {
            Some(BAD_TARGET)
        }
    }

    /// The least rule that is broken at the targets of a block at a place.
    fn targets_rule(
        &self,
        labels: &Labels,
        enterers: &Table<u32>,
        label: u32,
        block: &Block,
        place: usize,
        targets: &[u32],
    ) -> Option<u16>
        requires here { block_in labels.now label ≡ Some (seen_block block.now) }
        requires runs { stops_in labels.now label ≡ false }
        requires targets { targets.now ≡ targets_in labels.now label }
        requires within { place < length self.now.rows }
        ensures { result ≡ least (all_target_rules labels.now (found enterers.now) label (context_at self.now.rows place) targets.now) }
    {
        let mut rule = None;
        'targets: for target in targets {
            rule = lesser(
                rule,
                self.target_rule(labels, enterers, label, block, place, *target),
            );
        }
        rule
    }

    /// What is broken first at the targets of a block at a place: 402 BadTarget where one is refused that begins no other
    /// case of a switch, else 404 CaseFall where one is refused; at the terminator of the block.
    pub fn target_fault(
        &self,
        alloc: Global,
        labels: &Labels,
        enterers: &Table<u32>,
        label: u32,
        block: &Block,
        place: usize,
    ) -> Result<Option<Refusal>, NoMemory>
        requires here { block_in labels.now label ≡ Some (seen_block block.now) }
        requires within { place < length self.now.rows }
        ensures { IfOk result (λ refusal. refusal ≡ first (here (end_at labels.now label) (all_target_rules labels.now (found enterers.now) label (context_at self.now.rows place) (targets_in labels.now label)))) }
    {
        if labels.stops(label) {
            return Ok(None);
        }
        let targets = block.targets(alloc)?;
        match self.targets_rule(labels, enterers, label, block, place, &targets) {
            Some(rule) => Ok(Some(Refusal {
                rule,
                at: block.end_at,
            })),
            None => Ok(None),
        }
    }
}

ghost use Rattle.std.specs.Prelude.{◌≡◌, ◌⊎◌, true, false, IfOk};
ghost use Rattle.spv_blocks.specs.Blocks.{branches as branches_in, construct as construct_in};
ghost use Rattle.spv_normal.specs.Order.{is_loop as loop_in};
ghost use Rattle.spv_sources.specs.Close.{fork_end};
ghost use Rattle.spv_parse.specs.Scene.{Stands, code_of, end_in, leaves_in};
ghost use Rattle.spv_parse.specs.Ways.{IsExit, IsPart, IsParting, IsWay};

use crate::scene::Scene;
use crate::state::{Parting, State, Way};
use spv_base::{Id, NoMemory};
use spv_sources::Fork;
use spv_sources::front::is_loop;
use spv_tree::{Entry, Exit, Loop};
use std::alloc::Global;

impl Scene<'_> {
    /// Whether a branch of a block to the target leaves a construct round it.
    pub(crate) fn leaves(&self, block: Id, target: Id, left: usize) -> bool
        requires { Stands self.now block left }
        ensures { result ≡ leaves_in self.now block target }
    {
        let number = block.number();
        let Some(text) = self.labels.block(number) else {
            unreachable!()
        };
        let Some(place) = self.walked.place(number) else {
            unreachable!()
        };
        self.walked.rows().is_exit_behind(
            place,
            text.construct(),
            number,
            &text.end,
            target.number(),
        )
    }

    /// Whether a block is the header of a loop.
    pub(crate) fn opens_loop(&self, label: Id) -> bool
        ensures { result ≡ loop_in (construct_in self.now.labels.now label) }
    {
        is_loop(self.labels, label.number())
    }

    /// A branch of a block that leaves a construct round it.
    pub(crate) fn exit(
        &self,
        alloc: Global,
        block: Id,
        target: Id,
        left: usize,
    ) -> Result<Exit, NoMemory>
        requires stands { Stands self.now block left }
        requires branch { branches_in (code_of self.now) block target ≡ true }
        requires leaves { leaves_in self.now block target ≡ true }
        ensures { IfOk result (λ exit. IsExit self.now block target exit) }
    {
        let values = self.source.values(alloc, block, target)?;
        Ok(Exit { target, values })
    }

    /// Where a branch of a block leads.
    pub(crate) fn way(
        &self,
        alloc: Global,
        block: Id,
        target: Id,
        left: usize,
    ) -> Result<Way, NoMemory>
        requires stands { Stands self.now block left }
        requires branch { branches_in (code_of self.now) block target ≡ true }
        ensures { IfOk result (λ way. IsWay self.now block left target way) }
    {
        if self.leaves(block, target, left) {
            Ok(Way::Exit(self.exit(alloc, block, target, left)?))
        } else if self.opens_loop(target) {
            Ok(Way::Loop(self.source.values(alloc, block, target)?))
        } else {
            Ok(Way::Block)
        }
    }

    /// The exit and the other target of an OpBranchConditional.
    pub(crate) fn parting(
        &self,
        alloc: Global,
        block: Id,
        fork: &Fork,
        left: usize,
    ) -> Result<Parting, NoMemory>
        requires stands { Stands self.now block left }
        requires end { end_in self.now block ≡ fork_end fork.now }
        requires one { (leaves_in self.now block fork.now.first ≡ true) ⊎ (leaves_in self.now block fork.now.second ≡ true) }
        ensures { IfOk result (λ parting. IsParting self.now block fork.now parting) }
    {
        if self.leaves(block, fork.first, left) {
            let exit = self.exit(alloc, block, fork.first, left)?;
            Ok(Parting {
                on: true,
                exit,
                other: fork.second,
            })
        } else {
            let exit = self.exit(alloc, block, fork.second, left)?;
            Ok(Parting {
                on: false,
                exit,
                other: fork.first,
            })
        }
    }

    /// What a merge block or continue target begins.
    pub(crate) fn part(&self, label: Id) -> State
        ensures { IsPart self.now.labels.now label result }
    {
        if self.opens_loop(label) {
            State::Loop(label, Entry::InPlace)
        } else {
            State::Behind(label)
        }
    }

    /// What the merge block of a loop begins.
    pub(crate) fn after(&self, turn: &Loop) -> State
        ensures { IsPart self.now.labels.now turn.now.merge.label result }
    {
        self.part(turn.merge.label)
    }
}

ghost use Rattle.std.specs.Prelude.{◌≡◌, ◌⊎◌, true, false, map, IfOk, OnOk};
ghost use Rattle.spv_blocks.specs.Blocks.{branches as branches_in, seconds};
ghost use Rattle.spv_sources.specs.declared.close.Close.TheVariants as close;
ghost use Rattle.spv_sources.specs.Close.{close_lines};
ghost use Rattle.spv_normal.specs.Order.{is_front as front_in};
ghost use Rattle.spv_tree.specs.Tree.{arm_body, case_of, opening_body, sequence_body};
ghost use Rattle.spv_parse.specs.declared.state.State.TheVariants as state;
ghost use Rattle.spv_parse.specs.Scene.{Stands, code_of};
ghost use Rattle.spv_parse.specs.Ends.{BeginsBlock, Ends, GoesOn, IsPlain, Reads, SpellsArmTo, SpellsLines, SpellsState, StandsState};
ghost use Rattle.spv_parse.specs.Loops.{IsTurn, OpensLoop};
ghost use Rattle.spv_parse.specs.Arms.{BranchToEach, SpellEach};

use crate::naming::other_targets;
use crate::pushing::{entered, push_steps};
use crate::scene::Scene;
use crate::state::{Onward, State, Way};
use spv_base::{Id, NoMemory};
use spv_sources::{Close, Fork, LoopEnd, Text};
use spv_tree::{
    Arm, Block, Case, Choice, Control, End, Entry, Item, Leaving, Loop, Opening, Sequence, Switch,
};
use sqlite_items::Items;
use std::alloc::Global;

impl Scene<'_> {
    /// The sequence that goes on in a state, behind items.
    #[cycle(parse)]
    pub(crate) fn sequence(
        &self,
        alloc: Global,
        items: Vec<Item>,
        state: State,
        left: usize,
    ) -> Result<Sequence, NoMemory>
        requires { StandsState self.now state left }
        ensures { IfOk result (λ sequence. Ends (SpellsState self.now state) items.items (sequence_body sequence)) }
    {
        let mut items = items;
        let mut state = state;
        let mut left = left;
        'states: loop {
            match self.turn(alloc, &mut items, state, left)? {
                Onward::To(next) => {
                    state = next;
                    left -= 1;
                }
                Onward::End(end) => {
                    return Ok(Sequence {
                        items: Items::from_vec(items),
                        end,
                    });
                }
            }
        }
    }

    /// Adds what a block gives to a sequence.
    #[cycle(parse)]
    fn turn(
        &self,
        alloc: Global,
        items: &mut Vec<Item>,
        state: State,
        left: usize,
    ) -> Result<Onward, NoMemory>
        requires { StandsState self.now state left }
        ensures { IfOk result (λ onward. GoesOn self.now (SpellsState self.now state) left items.old.items items.new.items onward) }
    {
        match state {
            State::Behind(label) => self.behind(alloc, items, label, left),
            State::Loop(header, entry) => {
                let turn = self.turning(alloc, header, entry, left)?;
                let after = self.after(&turn);
                items.push(Item::Loop(turn))?;
                Ok(Onward::To(after))
            }
        }
    }

    /// A block behind its OpPhi, which is no header of a loop.
    #[cycle(parse)]
    fn behind(
        &self,
        alloc: Global,
        items: &mut Vec<Item>,
        label: Id,
        left: usize,
    ) -> Result<Onward, NoMemory>
        requires { StandsState self.now (state.Behind label) left }
        ensures { IfOk result (λ onward. GoesOn self.now (SpellsState self.now (state.Behind label)) left items.old.items items.new.items onward) }
    {
        let Text { steps, close } = self.source.text(alloc, label)?;
        push_steps(items, steps)?;
        self.close(alloc, items, label, close, left)
    }

    /// How a block ends that is no header of a loop.
    #[cycle(parse)]
    fn close(
        &self,
        alloc: Global,
        items: &mut Vec<Item>,
        label: Id,
        close: Close,
        left: usize,
    ) -> Result<Onward, NoMemory>
        requires reads { Reads self.now label left close }
        requires plain { IsPlain close }
        ensures { IfOk result (λ onward. GoesOn self.now (SpellsLines self.now label (close_lines close)) left items.old.items items.new.items onward) }
    {
        match close {
            Close::Return => Ok(Onward::End(End::Return)),
            Close::ReturnValue(value) => Ok(Onward::End(End::ReturnValue(value))),
            Close::Unreachable => Ok(Onward::End(End::Unreachable)),
            Close::Branch(target) => self.branch(alloc, items, label, target, left),
            Close::Split(fork) => self.split(alloc, items, label, &fork, left),
            Close::Choice {
                control,
                merge,
                fork,
            } => self.choice(alloc, items, label, control, merge, &fork, left),
            Close::Switch {
                control,
                merge,
                selector,
                default,
                cases,
            } => self.switch(
                alloc, items, label, control, merge, selector, default, cases, left,
            ),
            Close::Loop { .. } => unreachable!(),
        }
    }

    #[cycle(parse)]
    fn choice(
        &self,
        alloc: Global,
        items: &mut Vec<Item>,
        label: Id,
        control: Control,
        merge: Id,
        fork: &Fork,
        left: usize,
    ) -> Result<Onward, NoMemory>
        requires { Reads self.now label left (close.Choice control merge fork.now) }
        ensures { IfOk result (λ onward. GoesOn self.now (SpellsLines self.now label (close_lines (close.Choice control merge fork.now))) left items.old.items items.new.items onward) }
    {
        let first = self.arm(alloc, label, fork.first, left)?;
        let second = self.arm(alloc, label, fork.second, left)?;
        let front = self.source.front(alloc, merge)?;
        items.push(Item::Choice(Choice {
            control,
            condition: fork.condition,
            first,
            second,
            merge: front,
        }))?;
        Ok(Onward::To(self.part(merge)))
    }

    #[cycle(parse)]
    fn switch(
        &self,
        alloc: Global,
        items: &mut Vec<Item>,
        label: Id,
        control: Control,
        merge: Id,
        selector: Id,
        default: Id,
        cases: Items<Case>,
        left: usize,
    ) -> Result<Onward, NoMemory>
        requires { Reads self.now label left (close.Switch control merge selector default cases) }
        ensures { IfOk result (λ onward. GoesOn self.now (SpellsLines self.now label (close_lines (close.Switch control merge selector default cases))) left items.old.items items.new.items onward) }
    {
        let first = self.arm(alloc, label, default, left)?;
        let targets = other_targets(alloc, default, cases.as_slice())?;
        let others = self.arms(alloc, label, &targets, left)?;
        let front = self.source.front(alloc, merge)?;
        items.push(Item::Switch(Switch {
            control,
            selector,
            cases,
            first,
            others: Items::from_vec(others),
            merge: front,
        }))?;
        Ok(Onward::To(self.part(merge)))
    }

    /// The arms of a block by their targets.
    #[cycle(parse)]
    fn arms(
        &self,
        alloc: Global,
        label: Id,
        targets: &[Id],
        left: usize,
    ) -> Result<Vec<Arm>, NoMemory>
        requires stands { Stands self.now label left }
        requires branch { BranchToEach self.now label targets.now }
        ensures { IfOk result (λ arms. SpellEach self.now label targets.now arms.items) }
    {
        let mut arms = Vec::new(alloc);
        'targets: for target in targets {
            arms.push(self.arm(alloc, label, *target, left)?)?;
        }
        Ok(arms)
    }

    /// A loop, and the sequence in its continue part.
    #[cycle(parse)]
    fn turning(
        &self,
        alloc: Global,
        header: Id,
        entry: Entry,
        left: usize,
    ) -> Result<Loop, NoMemory>
        requires { StandsState self.now (state.Loop header entry) left }
        ensures { IfOk result (λ turn. IsTurn self.now header entry left turn) }
    {
        let Text { steps, close } = self.source.text(alloc, header)?;
        let Close::Loop {
            control,
            merge,
            next,
            end,
        } = close
        else {
            unreachable!()
        };
        let opening = self.opening(alloc, header, control, merge, next, end, left)?;
        let front = self.source.front(alloc, header)?;
        let next_front = self.source.front(alloc, next)?;
        let merge_front = self.source.front(alloc, merge)?;
        let continuing = self.sequence(alloc, Vec::new(alloc), self.part(next), left - 1)?;
        Ok(Loop {
            entry,
            header: front,
            steps: Items::from_vec(steps),
            control,
            opening,
            next: next_front,
            continuing,
            merge: merge_front,
        })
    }

    /// How the header of a loop ends, behind its merge instruction.
    #[cycle(parse)]
    fn opening(
        &self,
        alloc: Global,
        header: Id,
        control: Control,
        merge: Id,
        next: Id,
        end: LoopEnd,
        left: usize,
    ) -> Result<Opening, NoMemory>
        requires { Reads self.now header left (close.Loop control merge next end) }
        ensures { IfOk result (λ opening. OpensLoop self.now header control merge next end opening) }
    {
        match end {
            LoopEnd::Branch(target) => Ok(Opening::Branch(self.arm(alloc, header, target, left)?)),
            LoopEnd::Split(fork) => {
                let parting = self.parting(alloc, header, &fork, left)?;
                let arm = self.arm(alloc, header, parting.other, left)?;
                Ok(Opening::Split(Leaving {
                    condition: fork.condition,
                    on: parting.on,
                    exit: parting.exit,
                    arm,
                }))
            }
        }
    }

    /// Where a branch of a block leads, and what it begins.
    #[cycle(parse)]
    fn arm(&self, alloc: Global, block: Id, target: Id, left: usize) -> Result<Arm, NoMemory>
        requires stands { Stands self.now block left }
        requires branch { branches_in (code_of self.now) block target ≡ true }
        ensures { IfOk result (λ arm. SpellsArmTo self.now block target (arm_body arm)) }
    {
        match self.way(alloc, block, target, left)? {
            Way::Exit(exit) => Ok(Arm::Exit(exit)),
            Way::Loop(values) => self.entering(alloc, target, Entry::Branch(values), left - 1),
            Way::Block => self.block(alloc, target, left - 1),
        }
    }

    /// A loop that a branch goes to, and the sequence behind it.
    #[cycle(parse)]
    fn entering(
        &self,
        alloc: Global,
        header: Id,
        entry: Entry,
        left: usize,
    ) -> Result<Arm, NoMemory>
        requires { StandsState self.now (state.Loop header entry) left }
        ensures { IfOk result (λ arm. SpellsState self.now (state.Loop header entry) (arm_body arm)) }
    {
        let turn = self.turning(alloc, header, entry, left)?;
        let after = self.after(&turn);
        let rest = self.sequence(alloc, Vec::new(alloc), after, left - 1)?;
        entered(alloc, turn, rest)
    }

    /// A block that keeps its label, and the sequence that it begins.
    #[cycle(parse)]
    fn block(&self, alloc: Global, label: Id, left: usize) -> Result<Arm, NoMemory>
        requires stands { StandsState self.now (state.Behind label) left }
        requires plain { front_in (code_of self.now) label ≡ false }
        ensures { IfOk result (λ arm. BeginsBlock self.now label (arm_body arm)) }
    {
        let items = self.copied(alloc, label)?;
        let body = self.sequence(alloc, items, State::Behind(label), left)?;
        Ok(Arm::Block(Block { label, body }))
    }
}

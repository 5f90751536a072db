ghost use Rattle.std.specs.Prelude.{◌≡◌, true, false, IfOk, OnOk};
ghost use Rattle.spv_blocks.specs.Blocks.{is_label as label_in};
ghost use Rattle.spv_bodies.specs.Bodies.{Body as Plain};
ghost use Rattle.spv_sources.specs.declared.close.Close.TheVariants as close;
ghost use Rattle.spv_sources.specs.Close.{close_lines};
ghost use Rattle.spv_normal.specs.Order.{is_front as front_in};
ghost use Rattle.spv_spelling.specs.Text.{copies, phis, text};
ghost use Rattle.spv_tree.specs.declared.body.Item.{Loop as ALoopItem};
ghost use Rattle.spv_tree.specs.Tree.{arm_body, item_then, items_then, sequence_body, steps_then};
ghost use Rattle.spv_parse.specs.Scene.{code_of, insts_of};
ghost use Rattle.spv_parse.specs.Ways.{next_of_way};
ghost use Rattle.spv_parse.specs.Ends.{GoesOn, Reads, SpellsLines};

use crate::scene::Scene;
use crate::state::{Onward, State, Way};
use spv_base::{Id, NoMemory};
use spv_module::Inst;
use spv_sources::Fork;
use spv_tree::{Arm, End, Entered, Entry, Item, Loop, Next, Sequence, Split};
use std::alloc::Global;

/// Adds instructions to a sequence.
pub(crate) fn push_steps(items: &mut Vec<Item>, steps: Vec<Inst>) -> Result<(), NoMemory>
    ensures { OnOk result ((rest : Plain) → items_then items.new.items rest ≡ items_then items.old.items (steps_then steps.items rest)) }
{
    'steps: for step in steps {
        items.push(Item::Op(step))?;
    }
    Ok(())
}

/// Where a sequence goes on behind a conditional exit.
fn next_behind(way: &Way, other: Id) -> Next
    ensures { result ≡ next_of_way way.now other }
{
    match way {
        Way::Exit(_) => Next::Branch,
        Way::Loop(_) => Next::Branch,
        Way::Block => Next::Block(other),
    }
}

/// An arm that is a loop, and the sequence behind it.
pub(crate) fn entered(alloc: Global, turn: Loop, rest: Sequence) -> Result<Arm, NoMemory>
    ensures { IfOk result (λ arm. arm_body arm ≡ item_then (ALoopItem turn) (sequence_body rest)) }
{
    let turn = Box::new(alloc, turn)?;
    Ok(Arm::Loop(Entered { turn, rest }))
}

impl Scene<'_> {
    /// The copies that a block begins with, which is no front.
    pub(crate) fn copied(&self, alloc: Global, label: Id) -> Result<Vec<Item>, NoMemory>
        requires label { label_in (code_of self.now) label ≡ true }
        requires plain { front_in (code_of self.now) label ≡ false }
        ensures { IfOk result (λ items. (rest : Plain) → items_then items.items rest ≡ copies (phis (text (insts_of self.now) label)) rest) }
    {
        let mut items = Vec::new(alloc);
        self.source.copies(alloc, label, &mut items)?;
        Ok(items)
    }

    /// An OpBranch without a merge instruction.
    pub(crate) fn branch(
        &self,
        alloc: Global,
        items: &mut Vec<Item>,
        label: Id,
        target: Id,
        left: usize,
    ) -> Result<Onward, NoMemory>
        requires { Reads self.now label left (close.Branch target) }
        ensures { IfOk result (λ onward. GoesOn self.now (SpellsLines self.now label (close_lines (close.Branch target))) left items.old.items items.new.items onward) }
    {
        match self.way(alloc, label, target, left)? {
            Way::Exit(exit) => Ok(Onward::End(End::Exit(exit))),
            Way::Loop(values) => Ok(Onward::To(State::Loop(target, Entry::Branch(values)))),
            Way::Block => {
                self.source.copies(alloc, target, items)?;
                Ok(Onward::To(State::Behind(target)))
            }
        }
    }

    /// An OpBranchConditional without a merge instruction.
    pub(crate) fn split(
        &self,
        alloc: Global,
        items: &mut Vec<Item>,
        label: Id,
        fork: &Fork,
        left: usize,
    ) -> Result<Onward, NoMemory>
        requires { Reads self.now label left (close.Split fork.now) }
        ensures { IfOk result (λ onward. GoesOn self.now (SpellsLines self.now label (close_lines (close.Split fork.now))) left items.old.items items.new.items onward) }
    {
        let parting = self.parting(alloc, label, fork, left)?;
        let way = self.way(alloc, label, parting.other, left)?;
        let next = next_behind(&way, parting.other);
        items.push(Item::Split(Split {
            condition: fork.condition,
            on: parting.on,
            exit: parting.exit,
            next,
        }))?;
        match way {
            Way::Exit(exit) => Ok(Onward::End(End::Exit(exit))),
            Way::Loop(values) => Ok(Onward::To(State::Loop(parting.other, Entry::Branch(values)))),
            Way::Block => {
                self.source.copies(alloc, parting.other, items)?;
                Ok(Onward::To(State::Behind(parting.other)))
            }
        }
    }
}

ghost use Rattle.std.specs.Prelude.{◌∷◌, map, OnOk};
ghost use Rattle.spv_tree.specs.declared.body.Item.{Choice as AChoice, Switch as ASwitch, Loop as ALoop, Split as ASplit};
ghost use Rattle.spv_tree.specs.Tree.{arm_body, body_of, end_body, entry_of, item_then, items_then, opening_body, sequence_body};
ghost use Rattle.spv_tree.specs.Lines.{nothing};
ghost use Rattle.spv_editing.specs.Showing.{AStep, IsShown, carried, shown, uses};
ghost use Rattle.spv_editing.specs.Code.{shown_of_list, words_in};

use crate::visitor::Visitor;
use spv_base::{Id, NoMemory};
use spv_module::Inst;
use spv_tree::{Arm, Body, Choice, End, Entry, Exit, Item, Loop, Opening, Sequence, Split, Switch};

/// Shows each instruction and each use of an id. It goes down the tree by calls, so a tree's depth is to be one that the stack has room
/// for.
pub fn visit<V: Visitor>(visitor: &mut V, body: &Body) -> Result<(), NoMemory>
    ensures { OnOk result (IsShown V.has_seen (shown (body_of body.now).body) visitor.old visitor.new) }
{
    show_sequence(visitor, &body.sequence)
}

// ---- ids

fn show_ids<V: Visitor>(visitor: &mut V, ids: &[Id]) -> Result<(), NoMemory>
    ensures { OnOk result (IsShown V.has_seen (uses ids.now) visitor.old visitor.new) }
{
    'ids: for id in ids {
        visitor.used(*id)?;
    }
    Ok(())
}

fn show_exit<V: Visitor>(visitor: &mut V, exit: &Exit) -> Result<(), NoMemory>
    ensures { OnOk result (IsShown V.has_seen (uses exit.now.values) visitor.old visitor.new) }
{
    show_ids(visitor, exit.values.as_slice())
}

fn show_entry<V: Visitor>(visitor: &mut V, entry: &Entry) -> Result<(), NoMemory>
    ensures { OnOk result (IsShown V.has_seen (uses (carried (entry_of entry.now))) visitor.old visitor.new) }
{
    match entry {
        Entry::Branch(values) => show_ids(visitor, values.as_slice()),
        Entry::InPlace => Ok(()),
    }
}

fn show_end<V: Visitor>(visitor: &mut V, end: &End) -> Result<(), NoMemory>
    ensures { OnOk result (IsShown V.has_seen (shown (end_body end.now)) visitor.old visitor.new) }
{
    match end {
        End::Exit(exit) => show_exit(visitor, exit),
        End::Return => Ok(()),
        End::ReturnValue(value) => visitor.used(*value),
        End::Unreachable => Ok(()),
    }
}

// A conditional exit: its condition, and the values of its exit.
fn show_leaving<V: Visitor>(visitor: &mut V, condition: Id, exit: &Exit) -> Result<(), NoMemory>
    ensures { OnOk result (IsShown V.has_seen (uses (condition ∷ exit.now.values)) visitor.old visitor.new) }
{
    visitor.used(condition)?;
    show_exit(visitor, exit)
}

fn show_split<V: Visitor>(visitor: &mut V, split: &Split) -> Result<(), NoMemory>
    ensures { OnOk result (IsShown V.has_seen (shown (item_then (ASplit split.now) nothing)) visitor.old visitor.new) }
{
    show_leaving(visitor, split.condition, &split.exit)
}

// ---- instructions

fn show_steps<V: Visitor>(visitor: &mut V, steps: &[Inst]) -> Result<(), NoMemory>
    ensures { OnOk result (IsShown V.has_seen (map AStep (words_in steps.now)) visitor.old visitor.new) }
{
    'steps: for inst in steps {
        visitor.step(inst)?;
    }
    Ok(())
}

// ---- items

#[cycle(visiting)]
fn show_sequence<V: Visitor>(visitor: &mut V, sequence: &Sequence) -> Result<(), NoMemory>
    ensures { OnOk result (IsShown V.has_seen (shown (sequence_body sequence.now)) visitor.old visitor.new) }
{
    show_items(visitor, sequence.items.as_slice())?;
    show_end(visitor, &sequence.end)
}

#[cycle(visiting)]
fn show_items<V: Visitor>(visitor: &mut V, items: &[Item]) -> Result<(), NoMemory>
    ensures { OnOk result (IsShown V.has_seen (shown (items_then items.now nothing)) visitor.old visitor.new) }
{
    'items: for item in items {
        show_item(visitor, item)?;
    }
    Ok(())
}

#[cycle(visiting)]
fn show_item<V: Visitor>(visitor: &mut V, item: &Item) -> Result<(), NoMemory>
    ensures { OnOk result (IsShown V.has_seen (shown (item_then item.now nothing)) visitor.old visitor.new) }
{
    match item {
        Item::Op(inst) => visitor.step(inst),
        Item::Choice(choice) => show_choice(visitor, choice),
        Item::Switch(switch) => show_switch(visitor, switch),
        Item::Loop(turn) => show_loop(visitor, turn),
        Item::Split(split) => show_split(visitor, split),
    }
}

#[cycle(visiting)]
fn show_choice<V: Visitor>(visitor: &mut V, choice: &Choice) -> Result<(), NoMemory>
    ensures { OnOk result (IsShown V.has_seen (shown (item_then (AChoice choice.now) nothing)) visitor.old visitor.new) }
{
    visitor.used(choice.condition)?;
    show_arm(visitor, &choice.first)?;
    show_arm(visitor, &choice.second)
}

#[cycle(visiting)]
fn show_switch<V: Visitor>(visitor: &mut V, switch: &Switch) -> Result<(), NoMemory>
    ensures { OnOk result (IsShown V.has_seen (shown (item_then (ASwitch switch.now) nothing)) visitor.old visitor.new) }
{
    visitor.used(switch.selector)?;
    show_arm(visitor, &switch.first)?;
    show_arms(visitor, switch.others.as_slice())
}

#[cycle(visiting)]
fn show_loop<V: Visitor>(visitor: &mut V, turn: &Loop) -> Result<(), NoMemory>
    ensures { OnOk result (IsShown V.has_seen (shown (item_then (ALoop turn.now) nothing)) visitor.old visitor.new) }
{
    show_entry(visitor, &turn.entry)?;
    show_steps(visitor, turn.steps.as_slice())?;
    show_opening(visitor, &turn.opening)?;
    show_sequence(visitor, &turn.continuing)
}

#[cycle(visiting)]
fn show_opening<V: Visitor>(visitor: &mut V, opening: &Opening) -> Result<(), NoMemory>
    ensures { OnOk result (IsShown V.has_seen (shown (opening_body opening.now)) visitor.old visitor.new) }
{
    match opening {
        Opening::Branch(arm) => show_arm(visitor, arm),
        Opening::Split(leaving) => {
            show_leaving(visitor, leaving.condition, &leaving.exit)?;
            show_arm(visitor, &leaving.arm)
        }
    }
}

// ---- arms

#[cycle(visiting)]
fn show_arms<V: Visitor>(visitor: &mut V, arms: &[Arm]) -> Result<(), NoMemory>
    ensures { OnOk result (IsShown V.has_seen (shown_of_list arms.now) visitor.old visitor.new) }
{
    'arms: for arm in arms {
        show_arm(visitor, arm)?;
    }
    Ok(())
}

#[cycle(visiting)]
fn show_arm<V: Visitor>(visitor: &mut V, arm: &Arm) -> Result<(), NoMemory>
    ensures { OnOk result (IsShown V.has_seen (shown (arm_body arm.now)) visitor.old visitor.new) }
{
    match arm {
        Arm::Exit(exit) => show_exit(visitor, exit),
        Arm::Block(block) => show_sequence(visitor, &block.body),
        Arm::Loop(entered) => {
            show_loop(visitor, &entered.turn)?;
            show_sequence(visitor, &entered.rest)
        }
    }
}

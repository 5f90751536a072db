ghost use Rattle.std.specs.Prelude.{◌≡◌, ◌++◌, ◌∷◌, [], IfOk, OnOk};
ghost use Rattle.spv_bodies.specs.Bodies.{Body as Plain};
ghost use Rattle.spv_bodies.specs.Listing.{branches, entering};
ghost use Rattle.spv_tree.specs.declared.body.Item.{Choice as AChoice, Switch as ASwitch, Loop as ALoop, Split as ASplit};
ghost use Rattle.spv_tree.specs.Tree.{exit_of, entry_of, end_body, items_then, item_then, sequence_body, arm_body, opening_body};
ghost use Rattle.spv_tree.specs.Branches.{branchings, branches_of_list};

use crate::body::{
    Arm, Choice, End, Entry, Exit, Item, Loop, Next, Opening, Sequence, Split, Switch,
};
use crate::branch::Branch;
use spv_base::{Id, NoMemory};
use sqlite_items::Items;
use std::alloc::Global;

// The branches with values that stand in a part whose first block is `block`, added to those found before, in the tree's order. What
// is gathered of an item gives the block that its sequence goes on in.

fn add(
    alloc: Global,
    found: &mut Vec<Branch>,
    block: Id,
    target: Id,
    values: &[Id],
) -> Result<(), NoMemory>
    ensures { OnOk result (branchings found.new.items ≡ branchings found.old.items ++ (block, record { target = target; values = values.now }) ∷ []) }
{
    let values = Items::from_slice(alloc, values)?;
    found.push(Branch {
        block,
        target,
        values,
    })?;
    Ok(())
}

fn add_exit(alloc: Global, found: &mut Vec<Branch>, block: Id, exit: &Exit) -> Result<(), NoMemory>
    ensures { OnOk result (branchings found.new.items ≡ branchings found.old.items ++ (block, exit_of exit.now) ∷ []) }
{
    add(alloc, found, block, exit.target, exit.values.as_slice())
}

// The branch to the header of a loop, where there is one.
fn add_entry(
    alloc: Global,
    found: &mut Vec<Branch>,
    block: Id,
    header: Id,
    entry: &Entry,
) -> Result<(), NoMemory>
    ensures { OnOk result (branchings found.new.items ≡ branchings found.old.items ++ entering block header (entry_of entry.now)) }
{
    match entry {
        Entry::Branch(values) => add(alloc, found, block, header, values.as_slice()),
        Entry::InPlace => Ok(()),
    }
}

fn gather_end(alloc: Global, found: &mut Vec<Branch>, block: Id, end: &End) -> Result<(), NoMemory>
    ensures { OnOk result (branchings found.new.items ≡ branchings found.old.items ++ branches block (end_body end.now)) }
{
    match end {
        End::Exit(exit) => add_exit(alloc, found, block, exit),
        End::Return => Ok(()),
        End::ReturnValue(_) => Ok(()),
        End::Unreachable => Ok(()),
    }
}

/// The branches of a sequence.
#[cycle(gather)]
pub fn gather(
    alloc: Global,
    found: &mut Vec<Branch>,
    block: Id,
    sequence: &Sequence,
) -> Result<(), NoMemory>
    ensures { OnOk result (branchings found.new.items ≡ branchings found.old.items ++ branches block (sequence_body sequence.now)) }
{
    let last = gather_items(alloc, found, block, sequence.items.as_slice())?;
    gather_end(alloc, found, last, &sequence.end)
}

#[cycle(gather)]
fn gather_items(
    alloc: Global,
    found: &mut Vec<Branch>,
    block: Id,
    items: &[Item],
) -> Result<Id, NoMemory>
    ensures { IfOk result (λ last. (rest : Plain) → branchings found.new.items ++ branches last rest ≡ branchings found.old.items ++ branches block (items_then items.now rest)) }
{
    let mut last = block;
    'items: for item in items {
        last = gather_item(alloc, found, last, item)?;
    }
    Ok(last)
}

#[cycle(gather)]
fn gather_item(
    alloc: Global,
    found: &mut Vec<Branch>,
    block: Id,
    item: &Item,
) -> Result<Id, NoMemory>
    ensures { IfOk result (λ last. (rest : Plain) → branchings found.new.items ++ branches last rest ≡ branchings found.old.items ++ branches block (item_then item.now rest)) }
{
    match item {
        Item::Op(_) => Ok(block),
        Item::Choice(choice) => gather_choice(alloc, found, block, choice),
        Item::Switch(switch) => gather_switch(alloc, found, block, switch),
        Item::Loop(turn) => gather_loop(alloc, found, block, turn),
        Item::Split(split) => gather_split(alloc, found, block, split),
    }
}

fn gather_split(
    alloc: Global,
    found: &mut Vec<Branch>,
    block: Id,
    split: &Split,
) -> Result<Id, NoMemory>
    ensures { IfOk result (λ last. (rest : Plain) → branchings found.new.items ++ branches last rest ≡ branchings found.old.items ++ branches block (item_then (ASplit split.now) rest)) }
{
    add_exit(alloc, found, block, &split.exit)?;
    match &split.next {
        Next::Block(label) => Ok(*label),
        Next::Branch => Ok(block),
    }
}

#[cycle(gather)]
fn gather_choice(
    alloc: Global,
    found: &mut Vec<Branch>,
    block: Id,
    choice: &Choice,
) -> Result<Id, NoMemory>
    ensures { IfOk result (λ last. (rest : Plain) → branchings found.new.items ++ branches last rest ≡ branchings found.old.items ++ branches block (item_then (AChoice choice.now) rest)) }
{
    gather_arm(alloc, found, block, &choice.first)?;
    gather_arm(alloc, found, block, &choice.second)?;
    Ok(choice.merge.label)
}

#[cycle(gather)]
fn gather_switch(
    alloc: Global,
    found: &mut Vec<Branch>,
    block: Id,
    switch: &Switch,
) -> Result<Id, NoMemory>
    ensures { IfOk result (λ last. (rest : Plain) → branchings found.new.items ++ branches last rest ≡ branchings found.old.items ++ branches block (item_then (ASwitch switch.now) rest)) }
{
    gather_arm(alloc, found, block, &switch.first)?;
    gather_arms(alloc, found, block, switch.others.as_slice())?;
    Ok(switch.merge.label)
}

#[cycle(gather)]
fn gather_arms(
    alloc: Global,
    found: &mut Vec<Branch>,
    block: Id,
    arms: &[Arm],
) -> Result<(), NoMemory>
    ensures { OnOk result (branchings found.new.items ≡ branchings found.old.items ++ branches_of_list block arms.now) }
{
    'arms: for arm in arms {
        gather_arm(alloc, found, block, arm)?;
    }
    Ok(())
}

#[cycle(gather)]
fn gather_loop(
    alloc: Global,
    found: &mut Vec<Branch>,
    block: Id,
    turn: &Loop,
) -> Result<Id, NoMemory>
    ensures { IfOk result (λ last. (rest : Plain) → branchings found.new.items ++ branches last rest ≡ branchings found.old.items ++ branches block (item_then (ALoop turn.now) rest)) }
{
    add_entry(alloc, found, block, turn.header.label, &turn.entry)?;
    gather_opening(alloc, found, turn.header.label, &turn.opening)?;
    gather(alloc, found, turn.next.label, &turn.continuing)?;
    Ok(turn.merge.label)
}

#[cycle(gather)]
fn gather_opening(
    alloc: Global,
    found: &mut Vec<Branch>,
    block: Id,
    opening: &Opening,
) -> Result<(), NoMemory>
    ensures { OnOk result (branchings found.new.items ≡ branchings found.old.items ++ branches block (opening_body opening.now)) }
{
    match opening {
        Opening::Branch(arm) => gather_arm(alloc, found, block, arm),
        Opening::Split(leaving) => {
            add_exit(alloc, found, block, &leaving.exit)?;
            gather_arm(alloc, found, block, &leaving.arm)
        }
    }
}

#[cycle(gather)]
fn gather_arm(alloc: Global, found: &mut Vec<Branch>, block: Id, arm: &Arm) -> Result<(), NoMemory>
    ensures { OnOk result (branchings found.new.items ≡ branchings found.old.items ++ branches block (arm_body arm.now)) }
{
    match arm {
        Arm::Exit(exit) => add_exit(alloc, found, block, exit),
        Arm::Block(inner) => gather(alloc, found, inner.label, &inner.body),
        Arm::Loop(entered) => {
            let last = gather_loop(alloc, found, block, &entered.turn)?;
            gather(alloc, found, last, &entered.rest)
        }
    }
}

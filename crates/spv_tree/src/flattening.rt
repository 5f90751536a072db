ghost use Rattle.std.specs.Prelude.{◌≡◌, ◌++◌, [], true, false, List, map, All, IfOk, OnOk};
ghost use Rattle.spv_bodies.specs.Bodies.{Body as Plain, begins_at_branch, target};
ghost use Rattle.spv_bodies.specs.Listing.{Branching, arm_lines, lines, listed};
ghost use Rattle.spv_tree.specs.declared.body.Item.{Op as AnOp, Choice as AChoice, Switch as ASwitch, Loop as ALoop, Split as ASplit};
ghost use Rattle.spv_tree.specs.Tree.{arm_body, body_of, end_body, entry_of, front_of, item_then, items_then, opening_body, sequence_body, words_of};
ghost use Rattle.spv_tree.specs.Fronts.{IsFilled};
ghost use Rattle.spv_tree.specs.Sound.{IsFormed, IsSound};
ghost use Rattle.spv_tree.specs.Lines.{AddsItem, Comes, IsFormedArm, IsFormedOpening, coming_lines, is_branch, leads_on, list_lines, nothing};

use crate::arrivals::Arrivals;
use crate::body::{
    Arm, Body, Choice, End, Entry, Front, Item, Loop, Next, Opening, Sequence, Split, Switch,
};
use crate::making::{
    push_branch, push_branch_conditional, push_function_end, push_label, push_leaving,
    push_loop_merge, push_return, push_return_value, push_selection_merge, push_unreachable,
};
use crate::phi::push_front;
use crate::switch::push_op_switch;
use spv_base::{Id, NoMemory};
use spv_module::{Inst, InstList};
use std::alloc::Global;

/// The instructions of a function, from OpFunction to OpFunctionEnd, in the tree's order: a block, the arms of a selection in the order of
/// its operands, its merge block; for a loop its header, body, continue part and merge block. An OpPhi has a pair for each branch to its block:
/// first those from the blocks that its parameter names, in that order, then the others in the order of the tree. The instructions of the
/// tree keep their offsets, and those that are made have offset 0.
///
/// The body is to be sound. It takes time in proportion to the words that it gives, up to a logarithm; it goes down the tree by calls, so a
/// tree's depth is to be one that the stack has room for.
pub fn flatten(alloc: Global, body: &Body) -> Result<InstList, NoMemory>
    requires { IsSound (body_of body.now) }
    ensures { IfOk result (λ insts. words_of insts ≡ listed (body_of body.now)) }
{
    let mut insts = InstList::new(alloc);
    flatten_into(alloc, &mut insts, body)?;
    Ok(insts)
}

/// Adds the instructions of a function to a list, as `flatten` gives them.
pub fn flatten_into(alloc: Global, insts: &mut InstList, body: &Body) -> Result<(), NoMemory>
    requires { IsSound (body_of body.now) }
    ensures { OnOk result (words_of insts.new ≡ words_of insts.old ++ listed (body_of body.now)) }
{
    let arrivals = Arrivals::of(alloc, body)?;
    insts.push_view(body.function.view())?;
    push_list(insts, &body.parameters)?;
    push_label(alloc, insts, body.label)?;
    push_sequence(alloc, insts, &arrivals, &body.sequence)?;
    push_function_end(alloc, insts)
}

fn push_list(insts: &mut InstList, list: &InstList) -> Result<(), NoMemory>
    ensures { OnOk result (words_of insts.new ≡ words_of insts.old ++ words_of list.now) }
{
    'list: for k in 0..list.count() {
        insts.push_view(list.at(k))?;
    }
    Ok(())
}

fn push_steps(insts: &mut InstList, steps: &[Inst]) -> Result<(), NoMemory>
    ensures { OnOk result (words_of insts.new ≡ words_of insts.old ++ map (λ inst. inst.words) steps.now) }
{
    'steps: for step in steps {
        insts.push_view(step.view())?;
    }
    Ok(())
}

fn push_end(alloc: Global, insts: &mut InstList, end: &End) -> Result<(), NoMemory>
    ensures { OnOk result (words_of insts.new ≡ words_of insts.old ++ lines [] [] (end_body end.now)) }
{
    match end {
        End::Exit(exit) => push_branch(alloc, insts, exit.target),
        End::Return => push_return(alloc, insts),
        End::ReturnValue(value) => push_return_value(alloc, insts, *value),
        End::Unreachable => push_unreachable(alloc, insts),
    }
}

fn target_of(arm: &Arm) -> Id
    ensures { result ≡ target (arm_body arm.now) }
{
    match arm {
        Arm::Exit(exit) => exit.target,
        Arm::Block(block) => block.label,
        Arm::Loop(entered) => entered.turn.header.label,
    }
}

fn target_of_end(end: &End) -> Id
    requires { begins_at_branch (end_body end.now) ≡ true }
    ensures { result ≡ target (end_body end.now) }
{
    match end {
        End::Exit(exit) => exit.target,
        _ => unreachable!(),
    }
}

// An item that begins at a branch is a loop.
fn target_of_item(item: &Item) -> Id
    requires { begins_at_branch (item_then item.now nothing) ≡ true }
    ensures { (rest : Plain) → result ≡ target (item_then item.now rest) }
{
    match item {
        Item::Loop(turn) => turn.header.label,
        Item::Op(_) => unreachable!(),
        Item::Choice(_) => unreachable!(),
        Item::Switch(_) => unreachable!(),
        Item::Split(_) => unreachable!(),
    }
}

fn target_of_rest(items: &[Item], end: &End) -> Id
    requires { begins_at_branch (items_then items.now (end_body end.now)) ≡ true }
    ensures { result ≡ target (items_then items.now (end_body end.now)) }
{
    match items.first() {
        Some(item) => target_of_item(item),
        None => target_of_end(end),
    }
}

// An OpBranchConditional without OpSelectionMerge, and the label of the block that its sequence goes on in. Whether its branch goes to what
// follows it.
fn push_split_item(
    alloc: Global,
    insts: &mut InstList,
    split: &Split,
    behind: &[Item],
    end: &End,
) -> Result<bool, NoMemory>
    requires { is_branch split.now.next ≡ true → begins_at_branch (items_then behind.now (end_body end.now)) ≡ true }
    ensures { IfOk result (λ begun. (all : List Branching) → AddsItem all false begun (words_of insts.old) (words_of insts.new) (ASplit split.now) (items_then behind.now (end_body end.now))) }
{
    match &split.next {
        Next::Block(label) => {
            push_leaving(
                alloc,
                insts,
                split.condition,
                split.on,
                split.exit.target,
                *label,
            )?;
            push_label(alloc, insts, *label)?;
            Ok(false)
        }
        Next::Branch => {
            push_leaving(
                alloc,
                insts,
                split.condition,
                split.on,
                split.exit.target,
                target_of_rest(behind, end),
            )?;
            Ok(true)
        }
    }
}

fn push_op(insts: &mut InstList, inst: &Inst) -> Result<bool, NoMemory>
    ensures { IfOk result (λ begun. (all : List Branching) (after : Plain) → AddsItem all false begun (words_of insts.old) (words_of insts.new) (AnOp inst.now) after) }
{
    insts.push_view(inst.view())?;
    Ok(false)
}

#[cycle(list)]
#[tactic(auto, using(crate::proofs::Formed::sequence_items))]
fn push_sequence(
    alloc: Global,
    insts: &mut InstList,
    arrivals: &Arrivals<'_>,
    sequence: &Sequence,
) -> Result<(), NoMemory>
    requires { IsFormed arrivals.now (sequence_body sequence.now) }
    ensures { OnOk result (words_of insts.new ≡ words_of insts.old ++ lines arrivals.now [] (sequence_body sequence.now)) }
{
    if push_items(
        alloc,
        insts,
        arrivals,
        sequence.items.as_slice(),
        &sequence.end,
    )? {
        Ok(())
    } else {
        push_end(alloc, insts, &sequence.end)
    }
}

// Whether the last item's branch goes to the end.
#[cycle(list)]
#[tactic(auto, using(crate::proofs::Sequences::next_alone, crate::proofs::Sequences::next_last))]
fn push_items(
    alloc: Global,
    insts: &mut InstList,
    arrivals: &Arrivals<'_>,
    items: &[Item],
    end: &End,
) -> Result<bool, NoMemory>
    requires { IsFormed arrivals.now (items_then items.now (end_body end.now)) }
    ensures { IfOk result (λ begun. Comes arrivals.now begun (words_of insts.old ++ lines arrivals.now [] (items_then items.now (end_body end.now))) (words_of insts.new) (end_body end.now)) }
{
    let mut begun = false;
    'items: for (k, item) in items.iter().enumerate() {
        let (_, behind) = items.split_at(k + 1);
        begun = push_item(alloc, insts, arrivals, begun, item, behind, end)?;
    }
    Ok(begun)
}

// An item, behind the branch to it if it is begun. Whether its own branch goes to what follows it.
#[cycle(list)]
fn push_item(
    alloc: Global,
    insts: &mut InstList,
    arrivals: &Arrivals<'_>,
    begun: bool,
    item: &Item,
    behind: &[Item],
    end: &End,
) -> Result<bool, NoMemory>
    requires formed { IsFormed arrivals.now (item_then item.now nothing) }
    requires last { leads_on item.now ≡ true → begins_at_branch (items_then behind.now (end_body end.now)) ≡ true }
    requires first { begun ≡ true → begins_at_branch (item_then item.now nothing) ≡ true }
    ensures { IfOk result (λ after. AddsItem arrivals.now begun after (words_of insts.old) (words_of insts.new) item.now (items_then behind.now (end_body end.now))) }
{
    match item {
        Item::Op(inst) => push_op(insts, inst),
        Item::Choice(choice) => push_choice(alloc, insts, arrivals, choice),
        Item::Switch(switch) => push_switch(alloc, insts, arrivals, switch),
        Item::Loop(turn) => push_loop(alloc, insts, arrivals, begun, turn),
        Item::Split(split) => push_split_item(alloc, insts, split, behind, end),
    }
}

#[cycle(list)]
#[tactic(auto, using(crate::proofs::Formed::choice_first, crate::proofs::Formed::choice_second, crate::proofs::Formed::choice_merge))]
fn push_choice(
    alloc: Global,
    insts: &mut InstList,
    arrivals: &Arrivals<'_>,
    choice: &Choice,
) -> Result<bool, NoMemory>
    requires { IsFormed arrivals.now (item_then (AChoice choice.now) nothing) }
    ensures { IfOk result (λ begun. (after : Plain) → AddsItem arrivals.now false begun (words_of insts.old) (words_of insts.new) (AChoice choice.now) after) }
{
    push_selection_merge(alloc, insts, choice.merge.label, choice.control)?;
    push_branch_conditional(
        alloc,
        insts,
        choice.condition,
        target_of(&choice.first),
        target_of(&choice.second),
    )?;
    push_arm(alloc, insts, arrivals, &choice.first)?;
    push_arm(alloc, insts, arrivals, &choice.second)?;
    push_front(alloc, insts, arrivals, &choice.merge)?;
    Ok(false)
}

#[cycle(list)]
#[tactic(auto, using(crate::proofs::Formed::switch_count, crate::proofs::Formed::switch_first, crate::proofs::Formed::switch_others, crate::proofs::Formed::switch_merge))]
fn push_switch(
    alloc: Global,
    insts: &mut InstList,
    arrivals: &Arrivals<'_>,
    switch: &Switch,
) -> Result<bool, NoMemory>
    requires { IsFormed arrivals.now (item_then (ASwitch switch.now) nothing) }
    ensures { IfOk result (λ begun. (after : Plain) → AddsItem arrivals.now false begun (words_of insts.old) (words_of insts.new) (ASwitch switch.now) after) }
{
    push_selection_merge(alloc, insts, switch.merge.label, switch.control)?;
    push_op_switch(
        alloc,
        insts,
        switch.selector,
        target_of(&switch.first),
        switch.cases.as_slice(),
    )?;
    push_arm(alloc, insts, arrivals, &switch.first)?;
    push_arms(alloc, insts, arrivals, switch.others.as_slice())?;
    push_front(alloc, insts, arrivals, &switch.merge)?;
    Ok(false)
}

// What stands before the instructions of a loop's header.
fn push_entry(
    alloc: Global,
    insts: &mut InstList,
    arrivals: &Arrivals<'_>,
    begun: bool,
    header: &Front,
    entry: &Entry,
) -> Result<(), NoMemory>
    requires { IsFilled arrivals.now (front_of header.now) }
    ensures { OnOk result (words_of insts.new ≡ words_of insts.old ++ coming_lines begun arrivals.now (front_of header.now) (entry_of entry.now)) }
{
    if begun {
        return push_front(alloc, insts, arrivals, header);
    }
    match entry {
        Entry::Branch(_) => {
            push_branch(alloc, insts, header.label)?;
            push_front(alloc, insts, arrivals, header)
        }
        Entry::InPlace => Ok(()),
    }
}

// A loop, behind the branch to it if it is begun.
#[cycle(list)]
#[tactic(auto, using(crate::proofs::Formed::loop_header, crate::proofs::Formed::loop_next, crate::proofs::Formed::loop_merge, crate::proofs::Formed::loop_opening, crate::proofs::Formed::loop_continuing))]
fn push_loop(
    alloc: Global,
    insts: &mut InstList,
    arrivals: &Arrivals<'_>,
    begun: bool,
    turn: &Loop,
) -> Result<bool, NoMemory>
    requires { IsFormed arrivals.now (item_then (ALoop turn.now) nothing) }
    ensures { IfOk result (λ after. (rest : Plain) → AddsItem arrivals.now begun after (words_of insts.old) (words_of insts.new) (ALoop turn.now) rest) }
{
    push_entry(alloc, insts, arrivals, begun, &turn.header, &turn.entry)?;
    push_steps(insts, turn.steps.as_slice())?;
    push_loop_merge(
        alloc,
        insts,
        turn.merge.label,
        turn.next.label,
        turn.control,
    )?;
    push_opening(alloc, insts, arrivals, &turn.opening)?;
    push_front(alloc, insts, arrivals, &turn.next)?;
    push_sequence(alloc, insts, arrivals, &turn.continuing)?;
    push_front(alloc, insts, arrivals, &turn.merge)?;
    Ok(false)
}

// How the header of a loop ends, and the blocks that it opens.
#[cycle(list)]
#[tactic(auto, using(crate::proofs::Formed::branch_formed, crate::proofs::Formed::leaving_formed))]
fn push_opening(
    alloc: Global,
    insts: &mut InstList,
    arrivals: &Arrivals<'_>,
    opening: &Opening,
) -> Result<(), NoMemory>
    requires { IsFormedOpening arrivals.now opening.now }
    ensures { OnOk result (words_of insts.new ≡ words_of insts.old ++ lines arrivals.now [] (opening_body opening.now)) }
{
    match opening {
        Opening::Branch(arm) => {
            push_branch(alloc, insts, target_of(arm))?;
            push_arm(alloc, insts, arrivals, arm)
        }
        Opening::Split(leaving) => {
            push_leaving(
                alloc,
                insts,
                leaving.condition,
                leaving.on,
                leaving.exit.target,
                target_of(&leaving.arm),
            )?;
            push_arm(alloc, insts, arrivals, &leaving.arm)
        }
    }
}

#[cycle(list)]
#[tactic(auto, using(crate::proofs::Formed::next_formed))]
fn push_arms(
    alloc: Global,
    insts: &mut InstList,
    arrivals: &Arrivals<'_>,
    arms: &[Arm],
) -> Result<(), NoMemory>
    requires { All (IsFormedArm arrivals.now) arms.now }
    ensures { OnOk result (words_of insts.new ≡ words_of insts.old ++ list_lines arrivals.now arms.now) }
{
    'arms: for arm in arms {
        push_arm(alloc, insts, arrivals, arm)?;
    }
    Ok(())
}

// The blocks of an arm, behind the branch to it.
#[cycle(list)]
#[tactic(auto, using(crate::proofs::Formed::block_formed))]
fn push_arm(
    alloc: Global,
    insts: &mut InstList,
    arrivals: &Arrivals<'_>,
    arm: &Arm,
) -> Result<(), NoMemory>
    requires { IsFormedArm arrivals.now arm.now }
    ensures { OnOk result (words_of insts.new ≡ words_of insts.old ++ arm_lines arrivals.now (arm_body arm.now)) }
{
    match arm {
        Arm::Exit(_) => Ok(()),
        Arm::Block(block) => {
            push_label(alloc, insts, block.label)?;
            push_sequence(alloc, insts, arrivals, &block.body)
        }
        Arm::Loop(entered) => {
            push_loop(alloc, insts, arrivals, true, &entered.turn)?;
            push_sequence(alloc, insts, arrivals, &entered.rest)
        }
    }
}

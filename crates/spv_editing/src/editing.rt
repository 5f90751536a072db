ghost use Rattle.std.specs.Prelude.{◌≡◌, ◌++◌, map, IfOk, OnOk};
ghost use Rattle.std.specs.List.{flat_map};
ghost use Rattle.spv_bodies.specs.Bodies.{Body as Plain};
ghost use Rattle.spv_tree.specs.declared.body.Arm.{Block as ABlock, Loop as AnEntered};
ghost use Rattle.spv_tree.specs.declared.body.Opening.{Split as AnOpeningSplit};
ghost use Rattle.spv_tree.specs.declared.body.Item.{Op as AnOp, Choice as AChoice, Switch as ASwitch, Loop as ALoop, Split as ASplit};
ghost use Rattle.spv_tree.specs.Tree.{arm_body, body_of, end_body, entry_of, exit_of, item_then, items_then, opening_body, sequence_body, steps_then};
ghost use Rattle.spv_editing.specs.Editing.{edited, edited_entry, edited_exit, edited_function};
ghost use Rattle.spv_editing.specs.Code.{words_in};

use crate::editor::Editor;
use crate::taking::in_order;
use spv_base::{Id, NoMemory};
use spv_module::Inst;
use spv_tree::{
    Arm, Block, Body, Choice, End, Entered, Entry, Exit, Item, Leaving, Loop, Opening, Sequence,
    Split, Switch,
};
use sqlite_items::Items;
use std::alloc::Global;

/// The body with what stands for each instruction and for each use of an id. It goes down the tree by calls, so a tree's depth is to be
/// one that the stack has room for.
pub fn edit<E: Editor>(alloc: Global, editor: &E, body: Body) -> Result<Body, NoMemory>
    ensures { IfOk result (λ made. body_of made ≡ edited_function (E.edit editor.now) (body_of body)) }
{
    let Body {
        function,
        parameters,
        label,
        sequence,
    } = body;
    let sequence = edit_sequence(alloc, editor, sequence)?;
    Ok(Body {
        function,
        parameters,
        label,
        sequence,
    })
}

// ---- ids

fn edit_ids<E: Editor>(alloc: Global, editor: &E, ids: Items<Id>) -> Result<Items<Id>, NoMemory>
    ensures { IfOk result (λ made. made ≡ map (E.edit editor.now).uses ids) }
{
    let mut made = Items::new(alloc);
    'ids: for id in ids.as_slice() {
        made.push(editor.used(*id))?;
    }
    Ok(made)
}

fn edit_exit<E: Editor>(alloc: Global, editor: &E, exit: Exit) -> Result<Exit, NoMemory>
    ensures { IfOk result (λ made. exit_of made ≡ edited_exit (E.edit editor.now) (exit_of exit)) }
{
    let Exit { target, values } = exit;
    let values = edit_ids(alloc, editor, values)?;
    Ok(Exit { target, values })
}

fn edit_entry<E: Editor>(alloc: Global, editor: &E, entry: Entry) -> Result<Entry, NoMemory>
    ensures { IfOk result (λ made. entry_of made ≡ edited_entry (E.edit editor.now) (entry_of entry)) }
{
    match entry {
        Entry::Branch(values) => Ok(Entry::Branch(edit_ids(alloc, editor, values)?)),
        Entry::InPlace => Ok(Entry::InPlace),
    }
}

fn edit_end<E: Editor>(alloc: Global, editor: &E, end: End) -> Result<End, NoMemory>
    ensures { IfOk result (λ made. end_body made ≡ edited (E.edit editor.now) (end_body end)) }
{
    match end {
        End::Exit(exit) => Ok(End::Exit(edit_exit(alloc, editor, exit)?)),
        End::Return => Ok(End::Return),
        End::ReturnValue(value) => Ok(End::ReturnValue(editor.used(value))),
        End::Unreachable => Ok(End::Unreachable),
    }
}

fn edit_split<E: Editor>(alloc: Global, editor: &E, split: Split) -> Result<Split, NoMemory>
    ensures { IfOk result (λ made. (rest : Plain) → item_then (ASplit made) (edited (E.edit editor.now) rest) ≡ edited (E.edit editor.now) (item_then (ASplit split) rest)) }
{
    let Split {
        condition,
        on,
        exit,
        next,
    } = split;
    let condition = editor.used(condition);
    let exit = edit_exit(alloc, editor, exit)?;
    Ok(Split {
        condition,
        on,
        exit,
        next,
    })
}

// ---- instructions

fn edit_steps<E: Editor>(
    alloc: Global,
    editor: &E,
    steps: Items<Inst>,
) -> Result<Items<Inst>, NoMemory>
    ensures { IfOk result (λ made. words_in made ≡ flat_map (E.edit editor.now).steps (words_in steps)) }
{
    let mut made = Vec::new(alloc);
    'steps: for inst in in_order(alloc, steps)? {
        editor.step(alloc, inst, &mut made)?;
    }
    Ok(Items::from_vec(made))
}

// Adds instructions as items.
fn push_ops(insts: Vec<Inst>, made: &mut Items<Item>) -> Result<(), NoMemory>
    ensures { OnOk result ((rest : Plain) → items_then made.new rest ≡ items_then made.old (steps_then insts.items rest)) }
{
    'insts: for inst in insts {
        made.push(Item::Op(inst))?;
    }
    Ok(())
}

fn edit_op<E: Editor>(
    alloc: Global,
    editor: &E,
    inst: Inst,
    made: &mut Items<Item>,
) -> Result<(), NoMemory>
    ensures { OnOk result ((rest : Plain) → items_then made.new (edited (E.edit editor.now) rest) ≡ items_then made.old (edited (E.edit editor.now) (item_then (AnOp inst) rest))) }
{
    let mut steps = Vec::new(alloc);
    editor.step(alloc, inst, &mut steps)?;
    push_ops(steps, made)
}

// ---- items

#[cycle(editing)]
fn edit_sequence<E: Editor>(
    alloc: Global,
    editor: &E,
    sequence: Sequence,
) -> Result<Sequence, NoMemory>
    ensures { IfOk result (λ made. sequence_body made ≡ edited (E.edit editor.now) (sequence_body sequence)) }
{
    let Sequence { items, end } = sequence;
    let items = edit_items(alloc, editor, items)?;
    let end = edit_end(alloc, editor, end)?;
    Ok(Sequence { items, end })
}

#[cycle(editing)]
fn edit_items<E: Editor>(
    alloc: Global,
    editor: &E,
    items: Items<Item>,
) -> Result<Items<Item>, NoMemory>
    ensures { IfOk result (λ made. (rest : Plain) → items_then made (edited (E.edit editor.now) rest) ≡ edited (E.edit editor.now) (items_then items rest)) }
{
    let mut made = Items::new(alloc);
    'items: for item in in_order(alloc, items)? {
        edit_item(alloc, editor, item, &mut made)?;
    }
    Ok(made)
}

#[cycle(editing)]
fn edit_item<E: Editor>(
    alloc: Global,
    editor: &E,
    item: Item,
    made: &mut Items<Item>,
) -> Result<(), NoMemory>
    ensures { OnOk result ((rest : Plain) → items_then made.new (edited (E.edit editor.now) rest) ≡ items_then made.old (edited (E.edit editor.now) (item_then item rest))) }
{
    let edited = match item {
        Item::Op(inst) => return edit_op(alloc, editor, inst, made),
        Item::Choice(choice) => Item::Choice(edit_choice(alloc, editor, choice)?),
        Item::Switch(switch) => Item::Switch(edit_switch(alloc, editor, switch)?),
        Item::Loop(turn) => Item::Loop(edit_loop(alloc, editor, turn)?),
        Item::Split(split) => Item::Split(edit_split(alloc, editor, split)?),
    };
    made.push(edited)?;
    Ok(())
}

#[cycle(editing)]
fn edit_choice<E: Editor>(alloc: Global, editor: &E, choice: Choice) -> Result<Choice, NoMemory>
    ensures { IfOk result (λ made. (rest : Plain) → item_then (AChoice made) (edited (E.edit editor.now) rest) ≡ edited (E.edit editor.now) (item_then (AChoice choice) rest)) }
{
    let Choice {
        control,
        condition,
        first,
        second,
        merge,
    } = choice;
    let condition = editor.used(condition);
    let first = edit_arm(alloc, editor, first)?;
    let second = edit_arm(alloc, editor, second)?;
    Ok(Choice {
        control,
        condition,
        first,
        second,
        merge,
    })
}

#[cycle(editing)]
fn edit_switch<E: Editor>(alloc: Global, editor: &E, switch: Switch) -> Result<Switch, NoMemory>
    ensures { IfOk result (λ made. (rest : Plain) → item_then (ASwitch made) (edited (E.edit editor.now) rest) ≡ edited (E.edit editor.now) (item_then (ASwitch switch) rest)) }
{
    let Switch {
        control,
        selector,
        cases,
        first,
        others,
        merge,
    } = switch;
    let selector = editor.used(selector);
    let first = edit_arm(alloc, editor, first)?;
    let others = edit_arms(alloc, editor, others)?;
    Ok(Switch {
        control,
        selector,
        cases,
        first,
        others,
        merge,
    })
}

#[cycle(editing)]
fn edit_loop<E: Editor>(alloc: Global, editor: &E, turn: Loop) -> Result<Loop, NoMemory>
    ensures { IfOk result (λ made. (rest : Plain) → item_then (ALoop made) (edited (E.edit editor.now) rest) ≡ edited (E.edit editor.now) (item_then (ALoop turn) rest)) }
{
    let Loop {
        entry,
        header,
        steps,
        control,
        opening,
        next,
        continuing,
        merge,
    } = turn;
    let entry = edit_entry(alloc, editor, entry)?;
    let steps = edit_steps(alloc, editor, steps)?;
    let opening = edit_opening(alloc, editor, opening)?;
    let continuing = edit_sequence(alloc, editor, continuing)?;
    Ok(Loop {
        entry,
        header,
        steps,
        control,
        opening,
        next,
        continuing,
        merge,
    })
}

#[cycle(editing)]
fn edit_opening<E: Editor>(alloc: Global, editor: &E, opening: Opening) -> Result<Opening, NoMemory>
    ensures { IfOk result (λ made. opening_body made ≡ edited (E.edit editor.now) (opening_body opening)) }
{
    match opening {
        Opening::Branch(arm) => Ok(Opening::Branch(edit_arm(alloc, editor, arm)?)),
        Opening::Split(leaving) => Ok(Opening::Split(edit_leaving(alloc, editor, leaving)?)),
    }
}

#[cycle(editing)]
fn edit_leaving<E: Editor>(alloc: Global, editor: &E, leaving: Leaving) -> Result<Leaving, NoMemory>
    ensures { IfOk result (λ made. opening_body (AnOpeningSplit made) ≡ edited (E.edit editor.now) (opening_body (AnOpeningSplit leaving))) }
{
    let Leaving {
        condition,
        on,
        exit,
        arm,
    } = leaving;
    let condition = editor.used(condition);
    let exit = edit_exit(alloc, editor, exit)?;
    let arm = edit_arm(alloc, editor, arm)?;
    Ok(Leaving {
        condition,
        on,
        exit,
        arm,
    })
}

// ---- arms

#[cycle(editing)]
fn edit_arms<E: Editor>(alloc: Global, editor: &E, arms: Items<Arm>) -> Result<Items<Arm>, NoMemory>
    ensures { IfOk result (λ made. map arm_body made ≡ map (λ arm. edited (E.edit editor.now) (arm_body arm)) arms) }
{
    let mut made = Items::new(alloc);
    'arms: for arm in in_order(alloc, arms)? {
        made.push(edit_arm(alloc, editor, arm)?)?;
    }
    Ok(made)
}

#[cycle(editing)]
fn edit_arm<E: Editor>(alloc: Global, editor: &E, arm: Arm) -> Result<Arm, NoMemory>
    ensures { IfOk result (λ made. arm_body made ≡ edited (E.edit editor.now) (arm_body arm)) }
{
    match arm {
        Arm::Exit(exit) => Ok(Arm::Exit(edit_exit(alloc, editor, exit)?)),
        Arm::Block(block) => Ok(Arm::Block(edit_block(alloc, editor, block)?)),
        Arm::Loop(entered) => Ok(Arm::Loop(edit_entered(alloc, editor, entered)?)),
    }
}

#[cycle(editing)]
fn edit_block<E: Editor>(alloc: Global, editor: &E, block: Block) -> Result<Block, NoMemory>
    ensures { IfOk result (λ made. arm_body (ABlock made) ≡ edited (E.edit editor.now) (arm_body (ABlock block))) }
{
    let Block { label, body } = block;
    let body = edit_sequence(alloc, editor, body)?;
    Ok(Block { label, body })
}

#[cycle(editing)]
fn edit_entered<E: Editor>(alloc: Global, editor: &E, entered: Entered) -> Result<Entered, NoMemory>
    ensures { IfOk result (λ made. arm_body (AnEntered made) ≡ edited (E.edit editor.now) (arm_body (AnEntered entered))) }
{
    let Entered { turn, rest } = entered;
    let turn = edit_loop(alloc, editor, Box::into_inner(turn))?;
    let rest = edit_sequence(alloc, editor, rest)?;
    Ok(Entered {
        turn: Box::new(alloc, turn)?,
        rest,
    })
}

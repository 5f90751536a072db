ghost use Rattle.std.specs.Prelude.{◌≡◌, max};
ghost use Rattle.spv_bodies.specs.Bodies.{Body as Plain, depth as depth_in, depth_of_arms as depth_of_arms_in};
ghost use Rattle.spv_tree.specs.declared.body.Item.{Choice as AChoice, Switch as ASwitch, Loop as ALoop};
ghost use Rattle.spv_tree.specs.Tree.{body_of, items_then, item_then, sequence_body, arm_body, arms_of, opening_body};
ghost use Rattle.spv_tree.specs.Depth.{capped, more};

use crate::body::{Arm, Body, Choice, Item, Loop, Opening, Sequence, Switch};

impl Body {
    /// The greatest number of constructs round one point, or 4,294,967,295 where that is more. It takes no memory; it goes down the tree
    /// by calls, so a tree's depth is to be one that the stack has room for.
    pub fn depth(&self) -> u32
        ensures { result ≡ capped (depth_in (body_of self.now).body) }
    {
        depth_of_sequence(&self.sequence)
    }
}

fn greater(first: u32, second: u32) -> u32
    ensures { result ≡ max first second }
{
    first.max(second)
}

// A construct round points of these depths.
fn around(first: u32, second: u32) -> u32
    ensures { result ≡ more (max first second) }
{
    greater(first, second).saturating_add(1)
}

#[cycle(depth)]
fn depth_of_sequence(sequence: &Sequence) -> u32
    ensures { result ≡ capped (depth_in (sequence_body sequence.now)) }
{
    depth_of_items(sequence.items.as_slice())
}

#[cycle(depth)]
fn depth_of_items(items: &[Item]) -> u32
    ensures { (rest : Plain) → capped (depth_in (items_then items.now rest)) ≡ max result (capped (depth_in rest)) }
{
    let mut depth = 0;
    'items: for item in items {
        depth = greater(depth, depth_of_item(item));
    }
    depth
}

#[cycle(depth)]
fn depth_of_item(item: &Item) -> u32
    ensures { (rest : Plain) → capped (depth_in (item_then item.now rest)) ≡ max result (capped (depth_in rest)) }
{
    match item {
        Item::Op(_) => 0,
        Item::Choice(choice) => depth_of_choice(choice),
        Item::Switch(switch) => depth_of_switch(switch),
        Item::Loop(turn) => depth_of_loop(turn),
        Item::Split(_) => 0,
    }
}

#[cycle(depth)]
fn depth_of_choice(choice: &Choice) -> u32
    ensures { (rest : Plain) → capped (depth_in (item_then (AChoice choice.now) rest)) ≡ max result (capped (depth_in rest)) }
{
    around(depth_of_arm(&choice.first), depth_of_arm(&choice.second))
}

#[cycle(depth)]
fn depth_of_switch(switch: &Switch) -> u32
    ensures { (rest : Plain) → capped (depth_in (item_then (ASwitch switch.now) rest)) ≡ max result (capped (depth_in rest)) }
{
    around(
        depth_of_arm(&switch.first),
        depth_of_arms(switch.others.as_slice()),
    )
}

#[cycle(depth)]
fn depth_of_arms(arms: &[Arm]) -> u32
    ensures { (first : Plain) → capped (depth_of_arms_in (arms_of first arms.now)) ≡ max (capped (depth_in first)) result }
{
    let mut depth = 0;
    'arms: for arm in arms {
        depth = greater(depth, depth_of_arm(arm));
    }
    depth
}

#[cycle(depth)]
fn depth_of_loop(turn: &Loop) -> u32
    ensures { (rest : Plain) → capped (depth_in (item_then (ALoop turn.now) rest)) ≡ max result (capped (depth_in rest)) }
{
    around(
        depth_of_opening(&turn.opening),
        depth_of_sequence(&turn.continuing),
    )
}

#[cycle(depth)]
fn depth_of_opening(opening: &Opening) -> u32
    ensures { result ≡ capped (depth_in (opening_body opening.now)) }
{
    match opening {
        Opening::Branch(arm) => depth_of_arm(arm),
        Opening::Split(leaving) => depth_of_arm(&leaving.arm),
    }
}

#[cycle(depth)]
fn depth_of_arm(arm: &Arm) -> u32
    ensures { result ≡ capped (depth_in (arm_body arm.now)) }
{
    match arm {
        Arm::Exit(_) => 0,
        Arm::Block(block) => depth_of_sequence(&block.body),
        Arm::Loop(entered) => greater(
            depth_of_loop(&entered.turn),
            depth_of_sequence(&entered.rest),
        ),
    }
}

// How blocks end.
ghost use Rattle.std.specs.Prelude.{◌≡◌, ◌<◌, ◌^◌, true, false, drop, length, slice_index, ◌==◌, IfOk};
ghost use Rattle.spv_opcodes.specs.declared.op.TheConstants as op;
ghost use Rattle.spv_blocks.specs.Cutting.{ending};
ghost use Rattle.spv_module.specs.Instruction.{opcode as opcode_in};
ghost use Rattle.spv_module.specs.Layout.{is_terminator as terminator_in};
ghost use Rattle.spv_module.specs.View.{seen};
ghost use Rattle.spv_tree.specs.Control.{is_control};
ghost use Rattle.spv_walk.specs.Faults.{suits_selection, suits_loop};
ghost use Rattle.spv_sources.specs.Tail.{IsBare, IsClose, IsClosing, IsFork, IsLoopEnd, IsMerged};

use crate::close::{Close, Fork, LoopEnd};
use crate::pairing::cases_of;
use crate::reading::id_at;
use crate::unmarked::Unmarked;
use spv_base::NoMemory;
use spv_module::View;
use spv_opcodes::op;
use spv_tree::Control;
use sqlite_items::Items;
use std::alloc::Global;

/// The k-th word of a merge instruction, which is its control mask.
fn control_at(merge: &View, k: usize) -> Control
    requires control { is_control (slice_index merge.now.words.now k) ≡ true }
    requires within { k < length merge.now.words.now }
    ensures { result ≡ slice_index merge.now.words.now k }
{
    let Some(control) = Control::new(merge.words[k]) else {
        unreachable!();
    };
    control
}

/// An OpBranchConditional.
fn fork_of(end: &View) -> Fork
    requires { opcode_in (seen end.now) ≡ op.BRANCH_CONDITIONAL }
    ensures { IsFork (seen end.now) result }
{
    Fork {
        condition: id_at(end, 1),
        first: id_at(end, 2),
        second: id_at(end, 3),
    }
}

/// A terminator that may stand behind OpLoopMerge.
fn loop_end_of(end: &View) -> LoopEnd
    requires { suits_loop (ending (seen end.now)) ≡ true }
    ensures { IsLoopEnd (seen end.now) result }
{
    match end.opcode() {
        op::BRANCH => LoopEnd::Branch(id_at(end, 1)),
        _ => LoopEnd::Split(fork_of(end)),
    }
}

/// A terminator without a merge instruction.
fn bare(end: &View) -> Close
    requires ends { terminator_in (seen end.now) ≡ true }
    requires other { (opcode_in (seen end.now) == op.SWITCH) ≡ false }
    ensures { IsBare (seen end.now) result }
{
    match end.opcode() {
        op::BRANCH => Close::Branch(id_at(end, 1)),
        op::BRANCH_CONDITIONAL => Close::Split(fork_of(end)),
        op::RETURN => Close::Return,
        op::RETURN_VALUE => Close::ReturnValue(id_at(end, 1)),
        _ => Close::Unreachable,
    }
}

/// An OpSelectionMerge and OpBranchConditional.
fn choice(merge: &View, end: &View) -> Close
    requires merge { opcode_in (seen merge.now) ≡ op.SELECTION_MERGE }
    requires end { opcode_in (seen end.now) ≡ op.BRANCH_CONDITIONAL }
    ensures { IsMerged (seen merge.now) (seen end.now) result }
{
    Close::Choice {
        control: control_at(merge, 2),
        merge: id_at(merge, 1),
        fork: fork_of(end),
    }
}

/// An OpSelectionMerge and OpSwitch.
fn switch(alloc: Global, merge: &View, end: &View) -> Result<Close, NoMemory>
    requires merge { opcode_in (seen merge.now) ≡ op.SELECTION_MERGE }
    requires end { opcode_in (seen end.now) ≡ op.SWITCH }
    ensures { IfOk result (λ close. IsMerged (seen merge.now) (seen end.now) close) }
{
    let cases = Items::from_vec(cases_of(alloc, end)?);
    Ok(Close::Switch {
        control: control_at(merge, 2),
        merge: id_at(merge, 1),
        selector: id_at(end, 1),
        default: id_at(end, 2),
        cases,
    })
}

/// An OpSelectionMerge and a terminator.
fn selected(alloc: Global, merge: &View, end: &View) -> Result<Close, NoMemory>
    requires merge { opcode_in (seen merge.now) ≡ op.SELECTION_MERGE }
    requires suits { suits_selection (ending (seen end.now)) ≡ true }
    ensures { IfOk result (λ close. IsMerged (seen merge.now) (seen end.now) close) }
{
    match end.opcode() {
        op::SWITCH => switch(alloc, merge, end),
        _ => Ok(choice(merge, end)),
    }
}

/// An OpLoopMerge and a terminator.
fn looped(merge: &View, end: &View) -> Close
    requires merge { opcode_in (seen merge.now) ≡ op.LOOP_MERGE }
    requires suits { suits_loop (ending (seen end.now)) ≡ true }
    ensures { IsMerged (seen merge.now) (seen end.now) result }
{
    Close::Loop {
        control: control_at(merge, 3),
        merge: id_at(merge, 1),
        next: id_at(merge, 2),
        end: loop_end_of(end),
    }
}

/// What closes a block: the terminator that is the k-th instruction, or the merge instruction that is, and the terminator behind it.
pub(crate) fn close_at(alloc: Global, insts: &Unmarked, k: usize) -> Result<Close, NoMemory>
    requires { IsClosing (drop k insts.now) }
    ensures { IfOk result (λ close. IsClose (drop k insts.now) close) }
{
    prove!(k < insts.count());
    let inst = insts.at(k);
    match inst.opcode() {
        op::SELECTION_MERGE => selected(alloc, &inst, &insts.at(k + 1)),
        op::LOOP_MERGE => Ok(looped(&inst, &insts.at(k + 1))),
        _ => Ok(bare(&inst)),
    }
}

// Runs of instructions in a block.
ghost use Rattle.std.specs.Prelude.{◌≡◌, ◌≤◌, ◌<◌, ◌++◌, ◌∷◌, [], drop, take, length, slice_index, IfOk, OnOk};
ghost use Rattle.spv_module.specs.Inst.{held};
ghost use Rattle.spv_module.specs.View.{seen};
ghost use Rattle.spv_tree.specs.Tree.{words_of};
ghost use Rattle.spv_sources.specs.Close.{step_words};
ghost use Rattle.spv_sources.specs.Tail.{is_phi_inst, is_stop as stop_in, phi_insts, behind_phi_insts, before_stop, from_stop};

use crate::unmarked::Unmarked;
use spv_base::{Id, NoMemory};
use spv_module::layout::is_terminator;
use spv_module::{Inst, View};
use spv_opcodes::op;
use std::alloc::Global;

/// Whether the instruction is OpPhi.
fn is_phi(inst: &View) -> bool
    ensures { result ≡ is_phi_inst (seen inst.now) }
{
    inst.opcode() == op::PHI
}

/// Whether the instruction is a merge instruction or a terminator.
fn is_stop(inst: &View) -> bool
    ensures { result ≡ stop_in (seen inst.now) }
{
    matches!(inst.opcode(), op::SELECTION_MERGE | op::LOOP_MERGE) || is_terminator(inst)
}

/// The number of the first instruction from `start` on that is no OpPhi.
pub(crate) fn past_phis(insts: &Unmarked, start: usize) -> usize
    requires { start ≤ length insts.now }
    ensures front { drop start (take result insts.now) ≡ phi_insts (drop start insts.now) }
    ensures behind { drop result insts.now ≡ behind_phi_insts (drop start insts.now) }
    ensures after { start ≤ result }
    ensures within { result ≤ length insts.now }
{
    'phis: for k in start..insts.count() {
        if !is_phi(&insts.at(k)) {
            return k;
        }
    }
    insts.count()
}

/// The number of the first merge instruction or terminator from `start` on.
pub(crate) fn stop_from(insts: &Unmarked, start: usize) -> usize
    requires { start ≤ length insts.now }
    ensures before { drop start (take result insts.now) ≡ before_stop (drop start insts.now) }
    ensures from { drop result insts.now ≡ from_stop (drop start insts.now) }
    ensures after { start ≤ result }
    ensures within { result ≤ length insts.now }
{
    'steps: for k in start..insts.count() {
        if is_stop(&insts.at(k)) {
            return k;
        }
    }
    insts.count()
}

/// An instruction with words of its own.
pub(crate) fn owned(alloc: Global, inst: &View) -> Result<Inst, NoMemory>
    ensures { IfOk result (λ made. held made ≡ seen inst.now) }
{
    let mut made = Inst::new(alloc, inst.words)?;
    made.offset = inst.offset;
    Ok(made)
}

fn push_step(alloc: Global, steps: &mut Vec<Inst>, inst: &View) -> Result<(), NoMemory>
    ensures { OnOk result (step_words steps.new.items ≡ step_words steps.old.items ++ (seen inst.now).words ∷ []) }
{
    steps.push(owned(alloc, inst)?)?;
    Ok(())
}

/// The instructions from `from` up to `to`.
pub(crate) fn steps_in(
    alloc: Global,
    insts: &Unmarked,
    from: usize,
    to: usize,
) -> Result<Vec<Inst>, NoMemory>
    requires ordered { from ≤ to }
    requires within { to ≤ length insts.now }
    ensures { IfOk result (λ steps. step_words steps.items ≡ words_of (drop from (take to insts.now))) }
{
    let mut steps = Vec::new(alloc);
    'steps: for k in from..to {
        push_step(alloc, &mut steps, &insts.at(k))?;
    }
    Ok(steps)
}

/// The k-th word of an instruction, which is an id.
pub(crate) fn id_at(inst: &View, k: usize) -> Id
    requires { 0 < slice_index inst.now.words.now k }
    ensures { result ≡ slice_index inst.now.words.now k }
{
    let Some(id) = Id::new(inst.words[k]) else {
        unreachable!();
    };
    id
}

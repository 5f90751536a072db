// The words of OpPhi and OpSwitch two by two.
ghost use Rattle.std.specs.Prelude.{◌≡◌, ◌<◌, ◌++◌, ◌∷◌, [], drop, map, All, IfOk, OnOk};
ghost use Rattle.spv_opcodes.specs.declared.op.TheConstants as op;
ghost use Rattle.spv_blocks.specs.Cutting.{pairs};
ghost use Rattle.spv_module.specs.Instruction.{opcode as opcode_in};
ghost use Rattle.spv_module.specs.View.{seen};
ghost use Rattle.spv_tree.specs.Tree.{case_of};
ghost use Rattle.spv_sources.specs.Pairs.{IsCase, IsIdPair, incoming};

use spv_base::{Id, NoMemory};
use spv_module::View;
use spv_tree::Case;
use std::alloc::Global;

/// A value that an OpPhi takes, and the block that it comes from.
#[derive(Clone, Copy)]
pub(crate) struct Incoming {
    pub(crate) value: Id,
    pub(crate) block: Id,
}

/// The id of a number above 0.
pub(crate) fn id_of(number: u32) -> Id
    requires { 0 < number }
    ensures { result ≡ number }
{
    let Some(id) = Id::new(number) else {
        unreachable!();
    };
    id
}

/// The words from the k-th on, counted from 0; none past the end.
fn words_from(words: &[u32], k: usize) -> &[u32]
    ensures { result.now ≡ drop k words.now }
{
    let start = k.min(words.len());
    &words[start..]
}

fn push_incoming(list: &mut Vec<Incoming>, value: u32, block: u32) -> Result<(), NoMemory>
    requires { IsIdPair (value, block) }
    ensures { OnOk result (map incoming list.new.items ≡ map incoming list.old.items ++ (value, block) ∷ []) }
{
    let value = id_of(value);
    let block = id_of(block);
    list.push(Incoming { value, block })?;
    Ok(())
}

fn incoming_in(alloc: Global, words: &[u32]) -> Result<Vec<Incoming>, NoMemory>
    requires { All IsIdPair (pairs words.now) }
    ensures { IfOk result (λ list. map incoming list.items ≡ pairs words.now) }
{
    let mut list = Vec::new(alloc);
    let mut rest = words;
    'pairs: while let [value, block, ..] = rest {
        push_incoming(&mut list, *value, *block)?;
        rest = words_from(rest, 2);
    }
    Ok(list)
}

/// The pairs of an OpPhi.
pub(crate) fn incoming_of(alloc: Global, phi: &View) -> Result<Vec<Incoming>, NoMemory>
    requires { opcode_in (seen phi.now) ≡ op.PHI }
    ensures { IfOk result (λ list. map incoming list.items ≡ pairs (drop 3 phi.now.words.now)) }
{
    incoming_in(alloc, words_from(phi.words, 3))
}

fn push_case(list: &mut Vec<Case>, literal: u32, target: u32) -> Result<(), NoMemory>
    requires { IsCase (literal, target) }
    ensures { OnOk result (map case_of list.new.items ≡ map case_of list.old.items ++ (literal, target) ∷ []) }
{
    let target = id_of(target);
    list.push(Case { literal, target })?;
    Ok(())
}

fn cases_in(alloc: Global, words: &[u32]) -> Result<Vec<Case>, NoMemory>
    requires { All IsCase (pairs words.now) }
    ensures { IfOk result (λ list. map case_of list.items ≡ pairs words.now) }
{
    let mut list = Vec::new(alloc);
    let mut rest = words;
    'pairs: while let [literal, target, ..] = rest {
        push_case(&mut list, *literal, *target)?;
        rest = words_from(rest, 2);
    }
    Ok(list)
}

/// The cases of an OpSwitch.
pub(crate) fn cases_of(alloc: Global, switch: &View) -> Result<Vec<Case>, NoMemory>
    requires { opcode_in (seen switch.now) ≡ op.SWITCH }
    ensures { IfOk result (λ list. map case_of list.items ≡ pairs (drop 3 switch.now.words.now)) }
{
    cases_in(alloc, words_from(switch.words, 3))
}

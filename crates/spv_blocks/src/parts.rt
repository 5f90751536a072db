// What single instructions are in a block.
ghost use Rattle.std.specs.Prelude.{◌≡◌, drop, IfOk};
ghost use Rattle.spv_module.specs.Code.{is_function as function_in};
ghost use Rattle.spv_module.specs.View.{seen};
ghost use Rattle.spv_blocks.specs.Cutting.{is_label_mark as label_in, is_function_end as function_end_in, closes as closes_in, word as word_in, pairs, ins as ins_in, ending as ending_in};
ghost use Rattle.spv_blocks.specs.Seen.{seen_ins, seen_end};

use crate::block::{End, Ins};
use spv_base::NoMemory;
use spv_module::View;
use spv_module::layout::is_terminator;
use spv_opcodes::op;
use std::alloc::Global;

/// Whether the instruction is OpLabel.
pub(crate) fn is_label(inst: &View) -> bool
    ensures { result ≡ label_in (seen inst.now) }
{
    inst.opcode() == op::LABEL
}

/// Whether the instruction is OpFunction.
pub(crate) fn is_function(inst: &View) -> bool
    ensures { result ≡ function_in (seen inst.now) }
{
    inst.opcode() == op::FUNCTION
}

/// Whether the instruction is OpFunctionEnd.
pub(crate) fn is_function_end(inst: &View) -> bool
    ensures { result ≡ function_end_in (seen inst.now) }
{
    inst.opcode() == op::FUNCTION_END
}

/// Whether a block reaches up to the instruction, and not past it.
pub(crate) fn closes(inst: &View) -> bool
    ensures { result ≡ closes_in (seen inst.now) }
{
    is_terminator(inst) || is_label(inst) || is_function_end(inst)
}

/// The k-th word of an instruction, counted from 0; 0 past its end.
pub(crate) fn word(inst: &View, k: usize) -> u32
    ensures { result ≡ word_in (seen inst.now) k }
{
    inst.words.get(k).copied().unwrap_or(0)
}

/// The words from the k-th on, counted from 0; none past the end.
fn words_from(words: &[u32], k: usize) -> &[u32]
    ensures { result.now ≡ drop k words.now }
{
    let start = k.min(words.len());
    &words[start..]
}

/// Words two by two.
fn pairs_of(alloc: Global, words: &[u32]) -> Result<Vec<(u32, u32)>, NoMemory>
    ensures { IfOk result (λ list. list.items ≡ pairs words.now) }
{
    let mut list = Vec::new(alloc);
    let mut rest = words;
    'pairs: while let [one, other, behind @ ..] = rest {
        list.push((*one, *other))?;
        rest = behind;
    }
    Ok(list)
}

/// The words of an instruction from the one numbered 3 on, two by two.
fn pairs_in(alloc: Global, inst: &View) -> Result<Vec<(u32, u32)>, NoMemory>
    ensures { IfOk result (λ list. list.items ≡ pairs (drop 3 (seen inst.now).words)) }
{
    pairs_of(alloc, words_from(inst.words, 3))
}

/// What an instruction is before a terminator.
pub(crate) fn ins(alloc: Global, inst: &View) -> Result<Ins, NoMemory>
    ensures { IfOk result (λ ins. seen_ins ins ≡ ins_in (seen inst.now)) }
{
    let at = inst.offset;
    match inst.opcode() {
        op::PHI => Ok(Ins::Phi {
            at,
            kind: word(inst, 1),
            result: word(inst, 2),
            pairs: pairs_in(alloc, inst)?,
        }),
        op::SELECTION_MERGE => Ok(Ins::Selection {
            at,
            merge: word(inst, 1),
        }),
        op::LOOP_MERGE => Ok(Ins::Loop {
            at,
            merge: word(inst, 1),
            next: word(inst, 2),
        }),
        _ => Ok(Ins::Other { at }),
    }
}

/// What an instruction is as the end of a block.
pub(crate) fn ending(alloc: Global, inst: &View) -> Result<End, NoMemory>
    ensures { IfOk result (λ end. seen_end end ≡ ending_in (seen inst.now)) }
{
    match inst.opcode() {
        op::BRANCH => Ok(End::Branch(word(inst, 1))),
        op::BRANCH_CONDITIONAL => Ok(End::BranchIf(word(inst, 2), word(inst, 3))),
        op::SWITCH => Ok(End::Switch(word(inst, 2), pairs_in(alloc, inst)?)),
        op::RETURN | op::RETURN_VALUE => Ok(End::Return),
        op::UNREACHABLE => Ok(End::Unreachable),
        _ => Ok(End::Open),
    }
}

ghost use Rattle.std.specs.Prelude.{◌≡◌, ℕ, ◌+◌, ◌*◌, ◌<◌, ◌^◌, ◌++◌, ◌∷◌, [], true, length, slice_index, OnOk};
ghost use Rattle.spv_grammar.specs.Operands.{count_of};
ghost use Rattle.spv_module.specs.Instruction.{instruction_rules};
ghost use Rattle.spv_bodies.specs.Listing.{instruction, label_line, branch_line, split_line, selection_line, loop_line};
ghost use Rattle.spv_opcodes.specs.declared.op.TheConstants as op;
ghost use Rattle.spv_tree.specs.Tree.{words_of};

use crate::control::Control;
use spv_base::{Id, NoMemory};
use spv_module::InstList;
use spv_opcodes::op;
use std::alloc::Global;

/// The first word of an instruction with this many words.
pub fn head(count: u16, opcode: u16) -> u32
    ensures { result ≡ count * 2 ^ 16 + opcode }
{
    u32::from(count) * 0x1_0000 + u32::from(opcode)
}

/// Adds the instruction of these words. They are to be one instruction of the profile.
pub fn push_words(alloc: Global, insts: &mut InstList, words: &[u32]) -> Result<(), NoMemory>
    requires some { 0 < length words.now }
    requires counted { count_of (slice_index words.now 0) ≡ length words.now }
    requires unbroken { instruction_rules (2 ^ 32) words.now ≡ [] }
    ensures { OnOk result (words_of insts.new ≡ words_of insts.old ++ words.now ∷ []) }
{
    insts.push_words(alloc, words)
}

/// Adds an OpLabel.
#[tactic(auto, using(crate::proofs::Made::label_unbroken))]
pub fn push_label(alloc: Global, insts: &mut InstList, label: Id) -> Result<(), NoMemory>
    ensures { OnOk result (words_of insts.new ≡ words_of insts.old ++ label_line label ∷ []) }
{
    push_words(alloc, insts, &[head(2, op::LABEL), label.number()])
}

/// Adds an OpBranch.
#[tactic(auto, using(crate::proofs::Made::branch_unbroken))]
pub fn push_branch(alloc: Global, insts: &mut InstList, target: Id) -> Result<(), NoMemory>
    ensures { OnOk result (words_of insts.new ≡ words_of insts.old ++ branch_line target ∷ []) }
{
    push_words(alloc, insts, &[head(2, op::BRANCH), target.number()])
}

/// Adds an OpBranchConditional, whose targets are those where the condition holds and where it does not.
#[tactic(auto, using(crate::proofs::Made::split_unbroken))]
pub fn push_branch_conditional(
    alloc: Global,
    insts: &mut InstList,
    condition: Id,
    first: Id,
    second: Id,
) -> Result<(), NoMemory>
    ensures { OnOk result (words_of insts.new ≡ words_of insts.old ++ split_line condition true first second ∷ []) }
{
    push_words(
        alloc,
        insts,
        &[
            head(4, op::BRANCH_CONDITIONAL),
            condition.number(),
            first.number(),
            second.number(),
        ],
    )
}

/// Adds an OpBranchConditional that goes to `exit` where the condition is `on`.
pub fn push_leaving(
    alloc: Global,
    insts: &mut InstList,
    condition: Id,
    on: bool,
    exit: Id,
    other: Id,
) -> Result<(), NoMemory>
    ensures { OnOk result (words_of insts.new ≡ words_of insts.old ++ split_line condition on exit other ∷ []) }
{
    if on {
        push_branch_conditional(alloc, insts, condition, exit, other)
    } else {
        push_branch_conditional(alloc, insts, condition, other, exit)
    }
}

/// Adds an OpSelectionMerge.
#[tactic(auto, using(crate::proofs::Made::selection_unbroken))]
pub fn push_selection_merge(
    alloc: Global,
    insts: &mut InstList,
    merge: Id,
    control: Control,
) -> Result<(), NoMemory>
    ensures { OnOk result (words_of insts.new ≡ words_of insts.old ++ selection_line merge control ∷ []) }
{
    push_words(
        alloc,
        insts,
        &[head(3, op::SELECTION_MERGE), merge.number(), control.mask()],
    )
}

/// Adds an OpLoopMerge.
#[tactic(auto, using(crate::proofs::Made::loop_unbroken))]
pub fn push_loop_merge(
    alloc: Global,
    insts: &mut InstList,
    merge: Id,
    next: Id,
    control: Control,
) -> Result<(), NoMemory>
    ensures { OnOk result (words_of insts.new ≡ words_of insts.old ++ loop_line merge next control ∷ []) }
{
    push_words(
        alloc,
        insts,
        &[
            head(4, op::LOOP_MERGE),
            merge.number(),
            next.number(),
            control.mask(),
        ],
    )
}

/// Adds an OpReturn.
#[tactic(auto, using(crate::proofs::Made::return_unbroken))]
pub fn push_return(alloc: Global, insts: &mut InstList) -> Result<(), NoMemory>
    ensures { OnOk result (words_of insts.new ≡ words_of insts.old ++ instruction op.RETURN [] ∷ []) }
{
    push_words(alloc, insts, &[head(1, op::RETURN)])
}

/// Adds an OpReturnValue.
#[tactic(auto, using(crate::proofs::Made::return_value_unbroken))]
pub fn push_return_value(alloc: Global, insts: &mut InstList, value: Id) -> Result<(), NoMemory>
    ensures { OnOk result (words_of insts.new ≡ words_of insts.old ++ instruction op.RETURN_VALUE (value ∷ []) ∷ []) }
{
    push_words(alloc, insts, &[head(2, op::RETURN_VALUE), value.number()])
}

/// Adds an OpUnreachable.
#[tactic(auto, using(crate::proofs::Made::unreachable_unbroken))]
pub fn push_unreachable(alloc: Global, insts: &mut InstList) -> Result<(), NoMemory>
    ensures { OnOk result (words_of insts.new ≡ words_of insts.old ++ instruction op.UNREACHABLE [] ∷ []) }
{
    push_words(alloc, insts, &[head(1, op::UNREACHABLE)])
}

/// Adds an OpFunctionEnd.
#[tactic(auto, using(crate::proofs::Made::function_end_unbroken))]
pub fn push_function_end(alloc: Global, insts: &mut InstList) -> Result<(), NoMemory>
    ensures { OnOk result (words_of insts.new ≡ words_of insts.old ++ instruction op.FUNCTION_END [] ∷ []) }
{
    push_words(alloc, insts, &[head(1, op::FUNCTION_END)])
}

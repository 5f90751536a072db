ghost use Rattle.std.specs.Prelude.{◌≡◌, ℕ, ◌≤◌, ◌&&◌, ◌==◌, ◌++◌, not, cond, [], ◌∷◌, take, OnOk, length};
ghost use Rattle.std.specs.BTreeSet.{contains};
ghost use Rattle.std.specs.Ordering.{nat_cmp};
ghost use Rattle.std.specs.List.{list_any, zip};
ghost use Rattle.spv_module.specs.View.{seen};
ghost use Rattle.spv_module.specs.Instruction.{opcode};
ghost use Rattle.spv_ids.specs.Ids.{is_needed as needed, used_ids};
ghost use Rattle.spv_typing.specs.Kinds.{is_one_of};
ghost use Rattle.spv_norm.specs.Norm.{AreStayingLabels, is_gone, names_gone, namings, outside, stays_outside, staying};

use spv_base::NoMemory;
use spv_grammar::kind::Role;
use spv_ids::Definitions;
use spv_module::layout::is_line;
use spv_module::{InstList, View};
use spv_opcodes::op;
use std::collections::BTreeSet;

/// Whether the word is the id of the result's type or of an operand.
fn is_needed(role: Role) -> bool
    ensures { result ≡ needed role }
{
    role.is_type_id() || role.is_used_id()
}

/// Whether an id is a label that is not among those that stay.
fn is_gone_label(definitions: &Definitions, labels: &BTreeSet<u32>, id: u32) -> bool
    requires { AreStayingLabels definitions.now (λ l. contains nat_cmp labels.now l) }
    ensures { result ≡ is_gone definitions.now id }
{
    definitions.kind(id) == op::LABEL && !labels.contains(&id)
}

/// Whether one of the words is the id of such a label.
fn have_gone(
    definitions: &Definitions,
    labels: &BTreeSet<u32>,
    roles: &[Role],
    words: &[u32],
) -> bool
    requires { AreStayingLabels definitions.now (λ l. contains nat_cmp labels.now l) }
    ensures { result ≡ list_any (λ part. needed part.0 && is_gone definitions.now part.1) (zip roles.now words.now) }
{
    roles.iter().zip(words).any(|(role, word)| is_needed(*role)
        && is_gone_label(definitions, labels, *word))
}

/// Whether an instruction says what an id is called, or in which file its source is.
fn is_naming(inst: &View) -> bool
    ensures { result ≡ is_one_of namings (opcode (seen inst.now)) }
{
    matches!(inst.opcode(), op::NAME | op::MEMBER_NAME | op::SOURCE)
}

/// Whether an instruction outside functions stays.
fn stays(definitions: &Definitions, labels: &BTreeSet<u32>, inst: &View) -> bool
    requires { AreStayingLabels definitions.now (λ l. contains nat_cmp labels.now l) }
    ensures { result ≡ stays_outside definitions.now (seen inst.now) }
{
    !is_line(inst) && !(is_naming(inst) && have_gone(definitions, labels, inst.roles(), inst.words))
}

/// Adds the instructions before the first function that stay.
pub(crate) fn push_staying_outside(
    insts: &mut InstList,
    definitions: &Definitions,
    labels: &BTreeSet<u32>,
) -> Result<(), NoMemory>
    requires { AreStayingLabels definitions.now (λ l. contains nat_cmp labels.now l) }
    ensures { OnOk result (insts.new ≡ insts.old ++ staying definitions.now) }
{
    let all = definitions.insts();
    'instructions: for k in 0..outside_count(all) {
        push_staying(insts, definitions, labels, &all.at(k))?;
    }
    Ok(())
}

/// Adds an instruction that stands outside functions, if it stays.
fn push_staying(
    insts: &mut InstList,
    definitions: &Definitions,
    labels: &BTreeSet<u32>,
    inst: &View,
) -> Result<(), NoMemory>
    requires { AreStayingLabels definitions.now (λ l. contains nat_cmp labels.now l) }
    ensures { OnOk result (insts.new ≡ insts.old ++ cond (stays_outside definitions.now (seen inst.now)) (seen inst.now ∷ []) []) }
{
    if stays(definitions, labels, inst) {
        insts.push_view(*inst)?;
    }
    Ok(())
}

/// How many instructions stand before the first function.
fn outside_count(insts: &InstList) -> usize
    ensures front { take result insts.now ≡ outside insts.now }
    ensures within { result ≤ length insts.now }
{
    let mut count = 0;
    'instructions: while count < insts.count() && insts.at(count).opcode() != op::FUNCTION {
        count += 1;
    }
    count
}

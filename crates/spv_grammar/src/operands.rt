ghost use Rattle.std.specs.Prelude.{◌≡◌, ℕ, ◌++◌, ◌∷◌, [], List, length, replicate, OnOk, IfOk, Some, None, Option};
ghost use Rattle.spv_grammar.specs.Operands.{Takes, Fills, Reads, operand_roles, operand_kinds, inner_roles, spec_constant_roles, body_roles, roles_of, opcode_of as opcode_in, count_of as count_in, one, all, all_if, in_turn, text_by, text_role, set_name_role, taken, builtin as builtin_word, mark as mark_of};
ghost use Rattle.spv_grammar.specs.declared.kind.Kind.TheVariants as kinds;

use crate::enumerants::{
    ext_operands, has_alignment, is_bare_decoration, is_known_builtin, is_known_enumerant,
    is_known_memory_mask, is_numbered_decoration,
};
use crate::kind::{Enumerant, Kind, Role};
use crate::table::row_of;
use crate::text::{is_set_name, is_text, text_words};
use spv_base::{NoMemory, rule};
use spv_opcodes::{decoration, op};
use spv_words::bytes_of;
use std::alloc::Global;

/// The part of an enumerant or a mask.
fn mark(known: bool) -> Role
    ensures { result ≡ mark_of known }
{
    if known {
        Role::Literal
    } else {
        Role::UnknownEnumerant
    }
}

/// Adds a part as often as `count` says.
fn push_times(role: Role, count: usize, roles: &mut Vec<Role>) -> Result<(), NoMemory>
    ensures { OnOk result (roles.new.items ≡ roles.old.items ++ replicate count role) }
{
    'each: for _done in 0..count {
        roles.push(role)?;
    }
    Ok(())
}

/// Takes one word.
fn take_one<'a>(
    role: Role,
    words: &'a [u32],
    roles: &mut Vec<Role>,
) -> Result<Option<&'a [u32]>, NoMemory>
    ensures { IfOk result (Takes (one role words.now) roles.old.items roles.new.items) }
{
    match words {
        [] => Ok(None),
        [_, rest @ ..] => {
            roles.push(role)?;
            Ok(Some(rest))
        }
    }
}

/// Takes all words.
fn take_all<'a>(
    role: Role,
    words: &'a [u32],
    roles: &mut Vec<Role>,
) -> Result<Option<&'a [u32]>, NoMemory>
    ensures { IfOk result (Takes (all role words.now) roles.old.items roles.new.items) }
{
    push_times(role, words.len(), roles)?;
    Ok(Some(&[]))
}

/// Takes all words where `fits` allows their number.
fn take_if<'a>(
    fits: bool,
    role: Role,
    words: &'a [u32],
    roles: &mut Vec<Role>,
) -> Result<Option<&'a [u32]>, NoMemory>
    ensures { IfOk result (Takes (all_if fits (replicate (length words.now) role)) roles.old.items roles.new.items) }
{
    if fits {
        take_all(role, words, roles)
    } else {
        Ok(None)
    }
}

/// Adds the parts of literal words and ids in turn.
fn push_in_turn(words: &[u32], roles: &mut Vec<Role>) -> Result<(), NoMemory>
    ensures { OnOk result (roles.new.items ≡ roles.old.items ++ in_turn words.now) }
{
    let mut rest = words;
    'pairs: while let [_, _, behind @ ..] = rest {
        roles.push(Role::Literal)?;
        roles.push(Role::UsedId)?;
        rest = behind;
    }
    if !rest.is_empty() {
        roles.push(Role::Literal)?;
    }
    Ok(())
}

/// Takes pairs of a literal word and an id, where there are no more than `most`.
fn take_cases<'a>(
    most: u16,
    words: &'a [u32],
    roles: &mut Vec<Role>,
) -> Result<Option<&'a [u32]>, NoMemory>
    ensures { IfOk result (Takes (taken (kinds.Cases most) words.now) roles.old.items roles.new.items) }
{
    if words.len() % 2 != 0 || words.len() > 2 * most as usize {
        return Ok(None);
    }
    push_in_turn(words, roles)?;
    Ok(Some(&[]))
}

/// The part of the words of a string.
fn text_part(alloc: Global, words: &[u32]) -> Result<Role, NoMemory>
    ensures { IfOk result (λ role. role ≡ text_role words.now) }
{
    let octets = bytes_of(alloc, words)?;
    if is_text(octets.as_slice()) {
        Ok(Role::Octets)
    } else {
        Ok(Role::BadOctets)
    }
}

/// The part of the words of the name of an extended instruction set.
fn set_name_part(alloc: Global, words: &[u32]) -> Result<Role, NoMemory>
    ensures { IfOk result (λ role. role ≡ set_name_role words.now) }
{
    let octets = bytes_of(alloc, words)?;
    if !is_text(octets.as_slice()) {
        return Ok(Role::BadOctets);
    }
    if is_set_name(octets.as_slice()) {
        Ok(Role::Octets)
    } else {
        Ok(Role::UnknownEnumerant)
    }
}

/// Takes the string in front.
fn take_text<'a>(
    alloc: Global,
    words: &'a [u32],
    roles: &mut Vec<Role>,
) -> Result<Option<&'a [u32]>, NoMemory>
    ensures { IfOk result (Takes (text_by text_role words.now) roles.old.items roles.new.items) }
{
    if words.is_empty() {
        return Ok(None);
    }
    let (text, rest) = words.split_at(text_words(words));
    let role = text_part(alloc, text)?;
    push_times(role, text.len(), roles)?;
    Ok(Some(rest))
}

/// Takes the string in front, the name of an extended instruction set.
fn take_set_name<'a>(
    alloc: Global,
    words: &'a [u32],
    roles: &mut Vec<Role>,
) -> Result<Option<&'a [u32]>, NoMemory>
    ensures { IfOk result (Takes (text_by set_name_role words.now) roles.old.items roles.new.items) }
{
    if words.is_empty() {
        return Ok(None);
    }
    let (name, rest) = words.split_at(text_words(words));
    let role = set_name_part(alloc, name)?;
    push_times(role, name.len(), roles)?;
    Ok(Some(rest))
}

/// Takes an enumerant or a mask of one word.
fn take_enumerant<'a>(
    enumerant: Enumerant,
    words: &'a [u32],
    roles: &mut Vec<Role>,
) -> Result<Option<&'a [u32]>, NoMemory>
    ensures { IfOk result (Takes (taken (kinds.One enumerant) words.now) roles.old.items roles.new.items) }
{
    match words {
        [] => Ok(None),
        [word, ..] => take_one(mark(is_known_enumerant(enumerant, *word)), words, roles),
    }
}

/// Takes a mask of memory operands with its alignment, if there is one.
fn take_memory_operands<'a>(
    words: &'a [u32],
    roles: &mut Vec<Role>,
) -> Result<Option<&'a [u32]>, NoMemory>
    ensures { IfOk result (Takes (taken kinds.MemoryOperands words.now) roles.old.items roles.new.items) }
{
    match words {
        [] => Ok(Some(words)),
        [mask, rest @ ..] => {
            roles.push(mark(is_known_memory_mask(*mask)))?;
            if has_alignment(*mask) {
                take_one(Role::Literal, rest, roles)
            } else {
                Ok(Some(rest))
            }
        }
    }
}

/// Takes what stands behind a decoration whose literal is a built-in.
fn take_builtin<'a>(words: &'a [u32], roles: &mut Vec<Role>) -> Result<Option<&'a [u32]>, NoMemory>
    ensures { IfOk result (Takes (builtin_word words.now) roles.old.items roles.new.items) }
{
    match words {
        [] => Ok(None),
        [word, ..] => take_one(mark(is_known_builtin(*word)), words, roles),
    }
}

/// Takes a decoration with its literal.
fn take_decoration<'a>(
    words: &'a [u32],
    roles: &mut Vec<Role>,
) -> Result<Option<&'a [u32]>, NoMemory>
    ensures { IfOk result (Takes (taken kinds.Decoration words.now) roles.old.items roles.new.items) }
{
    let [word, rest @ ..] = words else {
        return Ok(None);
    };
    if is_bare_decoration(*word) {
        return take_one(Role::Literal, words, roles);
    }
    if is_numbered_decoration(*word) {
        roles.push(Role::Literal)?;
        return take_one(Role::Literal, rest, roles);
    }
    if *word == decoration::BUILTIN {
        roles.push(Role::Literal)?;
        return take_builtin(rest, roles);
    }
    roles.push(Role::UnknownEnumerant)?;
    take_all(Role::Literal, rest, roles)
}

/// Takes the number of an extended instruction with its operands.
fn take_ext_inst<'a>(words: &'a [u32], roles: &mut Vec<Role>) -> Result<Option<&'a [u32]>, NoMemory>
    ensures { IfOk result (Takes (taken kinds.ExtInst words.now) roles.old.items roles.new.items) }
{
    let [number, rest @ ..] = words else {
        return Ok(None);
    };
    match ext_operands(*number) {
        None => {
            roles.push(Role::UnknownEnumerant)?;
            take_all(Role::UsedId, rest, roles)
        }
        Some(count) => {
            roles.push(Role::Literal)?;
            take_if(rest.len() == count, Role::UsedId, rest, roles)
        }
    }
}

/// Takes what an operand takes of the words in front. None where the words do not fit it.
fn take<'a>(
    alloc: Global,
    kind: Kind,
    words: &'a [u32],
    roles: &mut Vec<Role>,
) -> Result<Option<&'a [u32]>, NoMemory>
    ensures { IfOk result (Takes (taken kind words.now) roles.old.items roles.new.items) }
{
    let count = words.len();
    match kind {
        Kind::ResultType => take_one(Role::TypeId, words, roles),
        Kind::ResultId => take_one(Role::DefinedId, words, roles),
        Kind::Id => take_one(Role::UsedId, words, roles),
        Kind::OptionalId if count == 0 => Ok(Some(words)),
        Kind::OptionalId => take_one(Role::UsedId, words, roles),
        Kind::Ids(most) => take_if(count <= most as usize, Role::UsedId, words, roles),
        Kind::IdPairs => take_if(count % 2 == 0, Role::UsedId, words, roles),
        Kind::Number => take_one(Role::Literal, words, roles),
        Kind::SomeNumbers => take_if(count != 0, Role::Literal, words, roles),
        Kind::Numbers => take_all(Role::Literal, words, roles),
        Kind::Weights => take_if(count == 0 || count == 2, Role::Literal, words, roles),
        Kind::Cases(most) => take_cases(most, words, roles),
        Kind::Text => take_text(alloc, words, roles),
        Kind::OptionalText if count == 0 => Ok(Some(words)),
        Kind::OptionalText => take_text(alloc, words, roles),
        Kind::SetName => take_set_name(alloc, words, roles),
        Kind::One(enumerant) => take_enumerant(enumerant, words, roles),
        Kind::MemoryOperands => take_memory_operands(words, roles),
        Kind::Decoration => take_decoration(words, roles),
        Kind::ExtInst => take_ext_inst(words, roles),
    }
}

/// The parts of words by their operands; false where the words do not fit.
fn push_operands(
    alloc: Global,
    kinds: &[Kind],
    words: &[u32],
    roles: &mut Vec<Role>,
) -> Result<bool, NoMemory>
    ensures { IfOk result (Fills (operand_roles kinds.now words.now) roles.old.items roles.new.items) }
{
    let mut rest = words;
    'operands: for kind in kinds {
        match take(alloc, *kind, rest, roles)? {
            Some(left) => rest = left,
            None => return Ok(false),
        }
    }
    Ok(rest.is_empty())
}

/// The operands of an instruction without the result's type and the result, which stand in front.
fn behind_result(kinds: &[Kind]) -> &[Kind]
    ensures { result.now ≡ operand_kinds kinds.now }
{
    match kinds {
        [Kind::ResultType, Kind::ResultId, operands @ ..] | [Kind::ResultId, operands @ ..] =>
            operands,
        _ => kinds,
    }
}

/// The parts of the operands that an opcode takes in an OpSpecConstantOp: all but the result's type and the
/// result. Answers the rule that the words break, if they break one.
fn push_inner_operands(
    alloc: Global,
    opcode: u32,
    words: &[u32],
    roles: &mut Vec<Role>,
) -> Result<Option<u16>, NoMemory>
    ensures { IfOk result (Reads (inner_roles opcode words.now) roles.old.items roles.new.items) }
{
    let Ok(named) = u16::try_from(opcode) else {
        return Ok(Some(rule::UNKNOWN_OPCODE));
    };
    if named == op::SPEC_CONSTANT_OP {
        return Ok(Some(rule::UNKNOWN_OPCODE));
    }
    let Some(row) = row_of(named) else {
        return Ok(Some(rule::UNKNOWN_OPCODE));
    };
    if push_operands(alloc, behind_result(row.kinds), words, roles)? {
        Ok(None)
    } else {
        Ok(Some(rule::OPERAND_COUNT))
    }
}

/// The parts of the words behind the first one of an OpSpecConstantOp.
fn push_spec_constant_operands(
    alloc: Global,
    words: &[u32],
    roles: &mut Vec<Role>,
) -> Result<Option<u16>, NoMemory>
    ensures { IfOk result (Reads (spec_constant_roles words.now) roles.old.items roles.new.items) }
{
    let [_, _, opcode, operands @ ..] = words else {
        return Ok(Some(rule::OPERAND_COUNT));
    };
    roles.push(Role::TypeId)?;
    roles.push(Role::DefinedId)?;
    roles.push(Role::Literal)?;
    push_inner_operands(alloc, *opcode, operands, roles)
}

/// The parts of the words behind the first one of an instruction.
fn push_body(
    alloc: Global,
    opcode: u16,
    words: &[u32],
    roles: &mut Vec<Role>,
) -> Result<Option<u16>, NoMemory>
    ensures { IfOk result (Reads (body_roles opcode words.now) roles.old.items roles.new.items) }
{
    if opcode == op::SPEC_CONSTANT_OP {
        return push_spec_constant_operands(alloc, words, roles);
    }
    let Some(row) = row_of(opcode) else {
        return Ok(Some(rule::UNKNOWN_OPCODE));
    };
    if push_operands(alloc, row.kinds, words, roles)? {
        Ok(None)
    } else {
        Ok(Some(rule::OPERAND_COUNT))
    }
}

/// The opcode in an instruction's first word, its low half (SPIR-V Specification, section 2.3).
pub fn opcode_of(word: u32) -> u16
    ensures { result ≡ opcode_in word }
{
    (word & 0xffff) as u16
}

/// The word count in an instruction's first word, its high half: how many words the instruction has, the
/// first one included (SPIR-V Specification, section 2.3).
pub fn count_of(word: u32) -> u16
    ensures { result ≡ count_in word }
{
    (word >> 16) as u16
}

/// Adds the part that each word of an instruction plays, one for each of `words`, which are the instruction's
/// words from the first to the last. Its word count is not looked at.
///
/// Answers the rule that the words break, if they break one: 106 where the profile does not have the opcode,
/// or an OpSpecConstantOp names one that it does not have or OpSpecConstantOp itself; 107 where the words do
/// not fit the operands, or there is no word. Then what was added to `roles` says nothing, nor
/// does it where memory is wanting. Strings and
/// enumerants that the profile does not have break no rule here: their words are added as
/// `Role::BadOctets` and `Role::UnknownEnumerant`.
#[tactic(auto, unfolding(crate::specs::Operands::roles_of))]
pub fn push_roles(
    alloc: Global,
    words: &[u32],
    roles: &mut Vec<Role>,
) -> Result<Option<u16>, NoMemory>
    ensures { IfOk result (Reads (roles_of words.now) roles.old.items roles.new.items) }
{
    let [first, operands @ ..] = words else {
        return Ok(Some(rule::OPERAND_COUNT));
    };
    roles.push(Role::Opcode)?;
    push_body(alloc, opcode_of(*first), operands, roles)
}

// The types that instructions declare.
ghost use Rattle.std.specs.Prelude.{◌≡◌, ℕ, ◌==◌, ◌&&◌, Bool, true, List, length, drop, slice_index};
ghost use Rattle.std.specs.Option.{option_copied};
ghost use Rattle.spv_opcodes.specs.declared.decoration.TheConstants as marks;
ghost use Rattle.spv_module.specs.Instruction.{opcode as opcode_in};
ghost use Rattle.spv_module.specs.View.{seen};
ghost use Rattle.spv_ids.specs.Ids.{word_of};
ghost use Rattle.spv_meaning.specs.Constants.{Table, members_of, type_at, length_at};
ghost use Rattle.spv_meaning.specs.Types.{DataType, Struct, Members, NoMember, Member};
ghost use Rattle.spv_typing.specs.Kinds.{is_one_of, type_of};
ghost use Rattle.spv_decorations.specs.Decorations.{decoration_of};
ghost use Rattle.spv_declarations.specs.Declarations.{says};
ghost use Rattle.spv_declarations.specs.Depth.{is_offset as offset_in};
ghost use Rattle.spv_types.specs.Facts.{facts};
ghost use Rattle.spv_types.specs.Meanings.{StandFor};
ghost use Rattle.spv_types.specs.Members.{SumUp, first_word_in, first_word_of_kept, length_of_word};
ghost use Rattle.spv_types.specs.Steps.{type_opcodes, IsLength, KeepsType};

use crate::facts::{TypeFacts, behind, is_offset, plus};
use crate::meaning::{Kept, Value};
use crate::meanings::{Meanings, type_facts};
use spv_decorations::Decorations;
use spv_folding::component;
use spv_grammar::operands::count_of;
use spv_ids::word;
use spv_module::View;
use spv_opcodes::{decoration, op};
use spv_typing::Kinds;

/// What is summed up in front of a struct's first member.
fn no_members() -> TypeFacts
    ensures { (whole : Members) → SumUp result whole whole }
{
    TypeFacts {
        depth: 0,
        is_laid_out: true,
        is_data: true,
        cells: Some(0),
    }
}

/// Whether decorations lay out the members so far and one more, by its offset and whether its type is laid out.
fn are_laid_out(so_far: bool, offset: Option<u32>, member: bool) -> bool
    ensures { result ≡ (so_far && (offset_in offset && member)) }
{
    so_far && is_offset(offset) && member
}

/// What is summed up behind one member more, so many bytes into the struct.
#[tactic(auto, using(crate::proofs::Members::one_member_more))]
fn with_member(summed: TypeFacts, offset: Option<u32>, member: TypeFacts) -> TypeFacts
    ensures { (t : DataType) (is_volatile : Bool) (rest whole : Members) → member ≡ facts t → SumUp summed (Member offset is_volatile t rest) whole → SumUp result rest whole }
{
    TypeFacts {
        depth: summed.depth.max(member.depth),
        is_laid_out: are_laid_out(summed.is_laid_out, offset, member.is_laid_out),
        is_data: summed.is_data,
        cells: plus(summed.cells, member.cells),
    }
}

/// What is kept of the struct of the members that are summed up.
fn around_members(summed: TypeFacts) -> TypeFacts
    ensures { (whole : Members) → SumUp summed NoMember whole → result ≡ facts (Struct whole) }
{
    TypeFacts {
        depth: behind(summed.depth),
        ..summed
    }
}

/// How many members a struct type has.
fn member_count(inst: &View) -> u32
    ensures { result ≡ length (drop 2 (seen inst.now).words) }
{
    u32::from(count_of(word(inst, 0))).saturating_sub(2)
}

/// The type of a struct type's member, counted from 0.
#[tactic(auto, using(crate::proofs::Members::members))]
fn member(inst: &View, n: u32) -> u32
    ensures { result ≡ slice_index (drop 2 (seen inst.now).words) n }
{
    word(inst, n as usize + 2)
}

/// What is kept of a struct type.
fn struct_facts(decorations: &Decorations, meanings: &Meanings, inst: &View) -> TypeFacts
    ensures { (table : Table) (ids : List ℕ) → StandFor table ids meanings.now.entries → result ≡ facts (Struct (members_of (says decorations.now) table (slice_index (seen inst.now).words 1) 0 (drop 2 (seen inst.now).words))) }
{
    let id = word(inst, 1);
    let mut summed = no_members();
    'members: for n in 0..member_count(inst) {
        let offset = decorations.member_literal(id, n, decoration::OFFSET);
        summed = with_member(summed, offset, type_facts(meanings, member(inst, n)));
    }
    around_members(summed)
}

/// The first word of a scalar or a vector; 0 of every other value.
fn first_word(value: &Value) -> u32
    ensures { result ≡ first_word_in value.now }
{
    match value {
        Value::Small(operand) => component(operand, 0),
        _ => 0,
    }
}

/// The first word of a constant that is a scalar or a vector; 0 of what is none.
fn first_word_kept(kept: Option<&Kept>) -> u32
    ensures { result ≡ first_word_of_kept (option_copied kept.entry) }
{
    match kept {
        Some(Kept::Constant(constant)) => first_word(&constant.value),
        _ => 0,
    }
}

/// The length that a word is, read as signed or not: 0 where it is negative.
fn length_in_word(is_signed: bool, word: u32) -> u32
    ensures { result ≡ length_of_word is_signed word }
{
    if is_signed && word >= 1 << 31 {
        0
    } else {
        word
    }
}

/// Whether the constant is of a signed type of integers.
fn is_signed(kinds: &Kinds, id: u32) -> bool
    ensures { result ≡ (word_of kinds.now (type_of kinds.now id) 3 == 1) }
{
    kinds.definitions().word(kinds.type_of(id), 3) == 1
}

/// The length of arrays that is the constant of this id; some number where it is no constant of one word.
#[tactic(auto, using(crate::proofs::Lengths::length_kept))]
pub fn length_of(kinds: &Kinds, meanings: &Meanings, id: u32) -> u32
    ensures { (table : Table) (ids : List ℕ) → StandFor table ids meanings.now.entries → IsLength kinds.now table id → result ≡ length_at table id }
{
    length_in_word(is_signed(kinds, id), first_word_kept(meanings.get(&id)))
}

/// What is kept of the type of a vector's components, or of an array's or a runtime array's elements.
fn part_facts(meanings: &Meanings, inst: &View) -> TypeFacts
    ensures { (table : Table) (ids : List ℕ) → StandFor table ids meanings.now.entries → result ≡ facts (type_at table (slice_index (seen inst.now).words 2)) }
{
    type_facts(meanings, word(inst, 2))
}

/// How many bytes an array's or a runtime array's elements are apart, where that is told.
fn stride(decorations: &Decorations, inst: &View) -> Option<u32>
    ensures { result ≡ decoration_of decorations.now (slice_index (seen inst.now).words 1) marks.ARRAY_STRIDE }
{
    decorations.literal(word(inst, 1), decoration::ARRAY_STRIDE)
}

/// What is kept of the type that the instruction declares: its facts, or for a pointer those of the type that it
/// points to. An array's are right where its length is a constant of one word. The opcode is one of those that the
/// `match` names.
pub fn declared_type(
    kinds: &Kinds,
    decorations: &Decorations,
    meanings: &Meanings,
    inst: &View,
) -> Kept
    requires same { decorations.now ≡ kinds.now }
    requires a_type { is_one_of type_opcodes (opcode_in (seen inst.now)) ≡ true }
    ensures { (table : Table) (ids : List ℕ) → StandFor table ids meanings.now.entries → KeepsType kinds.now table (seen inst.now) result }
{
    match inst.opcode() {
        op::TYPE_BOOL => Kept::Type(TypeFacts::boolean()),
        op::TYPE_INT => Kept::Type(TypeFacts::integer(word(inst, 2), word(inst, 3) == 1)),
        op::TYPE_VECTOR => Kept::Type(part_facts(meanings, inst).vector(word(inst, 3))),
        op::TYPE_ARRAY => {
            let count = length_of(kinds, meanings, word(inst, 3));
            Kept::Type(part_facts(meanings, inst).array(stride(decorations, inst), count))
        }
        op::TYPE_RUNTIME_ARRAY => {
            Kept::Type(part_facts(meanings, inst).runtime_array(stride(decorations, inst)))
        }
        op::TYPE_STRUCT => Kept::Type(struct_facts(decorations, meanings, inst)),
        op::TYPE_POINTER => Kept::Pointer(type_facts(meanings, word(inst, 3))),
        _ => unreachable!(),
    }
}

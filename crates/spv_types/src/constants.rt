// 304 BadConstant.
ghost use Rattle.std.specs.Prelude.{◌≡◌, ℕ, List, length, not, true, nat_eq};
ghost use Rattle.std.specs.Map.{lookup};
ghost use Rattle.std.specs.Option.{option_copied};
ghost use Rattle.std.specs.List.{list_all, zip};
ghost use Rattle.spv_module.specs.View.{seen};
ghost use Rattle.spv_typing.specs.Kinds.{has_type, is_spec, is_array, length_id};
ghost use Rattle.spv_declarations.specs.Declarations.{Declared};
ghost use Rattle.spv_types.specs.Meanings.{StandFor, known_of_kept};
ghost use Rattle.spv_types.specs.Steps.{IsLength, ArrayIsKnown};
ghost use Rattle.spv_declarations.specs.Constants as rules;

use crate::declared_type::length_of;
use crate::meaning::Kept;
use crate::meanings::Meanings;
use spv_ids::{word, words_from};
use spv_module::View;
use spv_opcodes::op;
use spv_typing::Kinds;

/// Whether each of some ids is a constant of a type.
fn all_of_type(kinds: &Kinds, t: u32, ids: &[u32]) -> bool
    ensures { result ≡ list_all (has_type kinds.now t) ids.now }
{
    ids.iter().all(|id| kinds.has_type(t, *id))
}

/// Whether no OpSpec instruction defines one of some ids.
fn none_spec(kinds: &Kinds, ids: &[u32]) -> bool
    ensures { result ≡ list_all (λ id. not (is_spec kinds.now id)) ids.now }
{
    ids.iter().all(|id| !kinds.is_spec(*id))
}

/// Whether each of some ids is a constant of the type at its place.
fn each_of(kinds: &Kinds, types: &[u32], ids: &[u32]) -> bool
    ensures { result ≡ list_all (λ pair. has_type kinds.now pair.0 pair.1) (zip types.now ids.now) }
{
    types.iter().zip(ids).all(|(t, id)| kinds.has_type(*t, *id))
}

/// Whether the constituents are as many as some types, and each is a constant of its type.
fn are_of(kinds: &Kinds, types: &[u32], ids: &[u32]) -> bool
    ensures { result ≡ rules.are_of kinds.now types.now ids.now }
{
    types.len() == ids.len() && each_of(kinds, types, ids)
}

fn known_in(kept: Option<&Kept>) -> bool
    ensures { result ≡ known_of_kept (option_copied kept.entry) }
{
    match kept {
        Some(Kept::Constant(constant)) => !constant.is_specialised,
        _ => false,
    }
}

/// Whether the id is a constant that is Known.
fn is_known(meanings: &Meanings, id: u32) -> bool
    ensures { result ≡ known_of_kept (lookup (nat_eq id) meanings.now.entries) }
{
    known_in(meanings.get(&id))
}

/// Whether the constant is Known, and is this length of an array, which is at least 1.
#[tactic(auto, using(crate::proofs::KnownLengths::length_known))]
fn has_length(kinds: &Kinds, meanings: &Meanings, id: u32, n: usize) -> bool
    ensures { (d : Declared) → StandFor d.table d.specialised meanings.now.entries → IsLength kinds.now d.table id → result ≡ rules.has_length d id n }
{
    is_known(meanings, id) && (n >= 1 && length_of(kinds, meanings, id) as usize == n)
}

/// Whether the constituents are as many as the parts of a type, and each has the type of its part.
fn composite_fits(kinds: &Kinds, meanings: &Meanings, t: u32, ids: &[u32]) -> bool
    ensures { (d : Declared) → StandFor d.table d.specialised meanings.now.entries → (is_array kinds.now t ≡ true → IsLength kinds.now d.table (length_id kinds.now t)) → result ≡ rules.composite_fits kinds.now d t ids.now }
{
    if kinds.is_vector(t) {
        kinds.component_count(t) as usize == ids.len()
            && all_of_type(kinds, kinds.component(t), ids)
    } else if kinds.is_array(t) {
        has_length(kinds, meanings, kinds.length_id(t), ids.len())
            && all_of_type(kinds, kinds.element(t), ids)
    } else {
        kinds.is_struct(t) && are_of(kinds, kinds.members(t), ids)
    }
}

/// Whether a constant's type suits it, and so do its literal words or its constituents. Every other instruction passes.
pub fn constant_fits(kinds: &Kinds, meanings: &Meanings, inst: &View) -> bool
    ensures { (d : Declared) → StandFor d.table d.specialised meanings.now.entries → ArrayIsKnown kinds.now d.table (seen inst.now) → result ≡ rules.constant_fits kinds.now d (seen inst.now) }
{
    let t = word(inst, 1);
    match inst.opcode() {
        op::CONSTANT_TRUE | op::CONSTANT_FALSE | op::SPEC_CONSTANT_TRUE | op::SPEC_CONSTANT_FALSE =>
            { kinds.is_bool(t) }
        op::CONSTANT | op::SPEC_CONSTANT => kinds.is_int(t) && words_from(inst, 3).len() == 1,
        op::CONSTANT_NULL | op::UNDEF => kinds.is_closed(t),
        op::SPEC_CONSTANT_COMPOSITE => composite_fits(kinds, meanings, t, words_from(inst, 3)),
        op::CONSTANT_COMPOSITE => {
            composite_fits(kinds, meanings, t, words_from(inst, 3))
                && none_spec(kinds, words_from(inst, 3))
        }
        _ => true,
    }
}

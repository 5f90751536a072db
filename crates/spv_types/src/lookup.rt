ghost use Rattle.std.specs.Prelude.{◌≡◌, ℕ, List, slice_get};
ghost use Rattle.std.specs.Option.{option_copied, option_map};
ghost use Rattle.spv_meaning.specs.Constants.{Table, meaning};
ghost use Rattle.spv_meaning.specs.Meanings.{constant_words};
ghost use Rattle.spv_typing.specs.Kinds.{is_one_of};
ghost use Rattle.spv_types.specs.Lookup.{kind_in, constant_kind, known_word, data_cells, declared_id, kind_of_kept};
ghost use Rattle.spv_types.specs.Meanings.{StandFor};

use crate::meaning::{ConstKind, Constant};
use crate::meanings::{Meanings, type_facts};
use crate::operands::constant_of;
use crate::words::word_at;
use spv_base::Id;
use spv_decorations::Decorations;
use spv_typing::Kinds;
use std::marker::Model;

/// What the ids of a module outside functions stand for: types, constants and global variables, in order of appearance,
/// with their decorations. It borrows the module.
#[derive(Debug, Drop)]
pub struct Tables<'a> {
    pub(crate) kinds: Kinds<'a>,
    pub(crate) decorations: Decorations<'a>,
    pub(crate) meanings: Meanings,
}

impl<'a> Model for Tables<'a> {
    ghost use Rattle.std.specs.Prelude.{List};
    ghost use Rattle.spv_module.specs.Instruction.{Instruction};
    ghost use Rattle.spv_types.specs.Whole.{HasMeanings};

    ghost Value = { List Instruction };

    ghost view = { λ tables. tables.kinds };

    ghost invariant = { λ tables. HasMeanings tables.kinds tables.decorations tables.meanings.entries };
}

fn kind_in(constant: Option<&Constant>) -> ConstKind
    ensures { result ≡ kind_of_kept (option_copied constant.entry) }
{
    match constant {
        Some(constant) if constant.is_specialised => ConstKind::Specialised,
        Some(_) => ConstKind::Known,
        None => ConstKind::NotConstant,
    }
}

/// The id of the n-th entry.
fn id_numbered(meanings: &Meanings, n: usize) -> Option<u32>
    ensures { result ≡ option_map (λ e. e.0) (slice_get meanings.now.entries n) }
{
    match meanings.get_index(n) {
        Some((id, _)) => Some(*id),
        None => None,
    }
}

/// What kind of a constant the id is.
#[tactic(auto, using(crate::proofs::Lookups::kind_kept))]
fn kind_of(meanings: &Meanings, id: u32) -> ConstKind
    ensures { (table : Table) (ids : List ℕ) → StandFor table ids meanings.now.entries → result ≡ kind_in (is_one_of ids id) (constant_words (meaning table id)) }
{
    kind_in(constant_of(meanings, id))
}

impl<'a> Tables<'a> {
    /// What the ids are by the instructions that define them.
    pub fn kinds(&self) -> &Kinds<'a>
        ensures { result.now ≡ self.now }
    {
        &self.kinds
    }

    /// The decorations of the module.
    pub fn decorations(&self) -> &Decorations<'a>
        ensures { result.now ≡ self.now }
    {
        &self.decorations
    }

    /// The id that the n-th declaration declares, counted from 0, of those outside functions in their order in the
    /// module: types but void and function types, constants, and variables. None from their number on.
    pub fn declared(&self, n: u32) -> Option<u32>
        ensures { result ≡ declared_id self.now n }
    {
        id_numbered(&self.meanings, n as usize)
    }

    /// What kind of a constant the id is. It is NotConstant for all that is no constant outside functions; an OpUndef
    /// there is a constant.
    pub fn constant(&self, id: Id) -> ConstKind
        ensures { result ≡ constant_kind self.now id }
    {
        kind_of(&self.meanings, id.number())
    }

    /// The k-th word of a constant that no specialisation changes, counted from 0. None for every other id, and where
    /// the constant has at most k words.
    pub fn word(&self, id: Id, k: u32) -> Option<u32>
        ensures { result ≡ known_word self.now id k }
    {
        let id = id.number();
        match kind_of(&self.meanings, id) {
            ConstKind::Known => word_at(&self.meanings, id, k),
            ConstKind::Specialised => None,
            ConstKind::NotConstant => None,
        }
    }

    /// How many words a value of the type has, packed, where no length of an array is specialised; a runtime array
    /// counts as none. None for an id that is no data type (Bool, Int, Vector, Array or Struct), and where the number
    /// does not fit 64 bits.
    pub fn cells(&self, ty: Id) -> Option<u64>
        ensures { result ≡ data_cells self.now ty }
    {
        let facts = type_facts(&self.meanings, ty.number());
        if facts.is_data { facts.cells } else { None }
    }
}

ghost use Rattle.std.specs.Prelude.{◌≡◌, ℕ, List, None, ◌++◌, ◌∷◌, [], nat_eq, OnOk};
ghost use Rattle.std.specs.Map.{lookup};
ghost use Rattle.spv_meaning.specs.Constants.{Table, type_at, pointer_at};
ghost use Rattle.spv_types.specs.Facts.{facts};
ghost use Rattle.std.specs.Option.{option_copied};
ghost use Rattle.spv_types.specs.Meanings.{StandFor, type_of_kept, pointee_of_kept};

use crate::facts::TypeFacts;
use crate::meaning::Kept;
use indexmap::IndexMap;
use spv_base::NoMemory;
use spv_seed::Seed;

/// What is kept of the ids that are defined outside functions, in order of appearance.
pub type Meanings = IndexMap<u32, Kept, Seed>;

fn type_in(kept: Option<&Kept>) -> TypeFacts
    ensures { result ≡ type_of_kept (option_copied kept.entry) }
{
    match kept {
        Some(Kept::Type(facts)) => *facts,
        _ => TypeFacts::void(),
    }
}

fn pointee_in(kept: Option<&Kept>) -> TypeFacts
    ensures { result ≡ pointee_of_kept (option_copied kept.entry) }
{
    match kept {
        Some(Kept::Pointer(facts)) => *facts,
        _ => TypeFacts::void(),
    }
}

/// What is kept of the type that the id is; of void where it is none that values have.
#[tactic(auto, using(crate::proofs::Standing::type_kept))]
pub fn type_facts(meanings: &Meanings, id: u32) -> TypeFacts
    ensures { (table : Table) (ids : List ℕ) → StandFor table ids meanings.now.entries → result ≡ facts (type_at table id) }
{
    type_in(meanings.get(&id))
}

/// What is kept of the type that the pointer type points to; of void where it is none.
#[tactic(auto, using(crate::proofs::Standing::pointee_kept))]
pub fn pointee_facts(meanings: &Meanings, id: u32) -> TypeFacts
    ensures { (table : Table) (ids : List ℕ) → StandFor table ids meanings.now.entries → result ≡ facts (pointer_at table id).1 }
{
    pointee_in(meanings.get(&id))
}

/// Adds what is kept of a new id, behind all others.
#[tactic(auto, using(crate::proofs::Standing::entries))]
pub fn add(meanings: &mut Meanings, id: u32, kept: Kept) -> Result<(), NoMemory>
    ensures { OnOk result (lookup (nat_eq id) meanings.old.entries ≡ None → meanings.new.entries ≡ meanings.old.entries ++ (id, kept) ∷ []) }
{
    meanings.insert(id, kept).map_err(|_| NoMemory)?;
    Ok(())
}

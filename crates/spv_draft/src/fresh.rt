ghost use Rattle.std.specs.Prelude.{◌≡◌, ◌++◌, ℕ, List, IfOk, IfSome, OnOk};
ghost use Rattle.spv_draft.specs.Named.{named_ids, words_with};
ghost use Rattle.spv_grammar.specs.Roles.{names_id};
ghost use Rattle.spv_module.specs.View.{seen};
ghost use Rattle.spv_draft.specs.Tallies.{Adds, Counts};
ghost use Rattle.spv_draft.specs.Fresh.{IsFirstFree, Knows};

use crate::lines::Lines;
use crate::tally::{Tally, add_named};
use spv_base::NoMemory;
use spv_module::View;
use std::alloc::Global;
use thiserror::Error;

/// The greatest id that the profile has room for.
pub const MOST_ID: u32 = 4_194_302;

/// Why no id was handed out.
#[derive(Clone, Copy, Debug, PartialEq, Eq, Error)]
pub enum IdFault {
    /// Each id is named.
    #[error("no id is left")]
    PastIds,
    /// Memory was wanting.
    #[error("out of memory")]
    NoMemory,
}

impl From<NoMemory> for IdFault {
    ghost use Rattle.std.specs.Prelude.{◌≡◌};
    ghost use Rattle.spv_draft.specs.declared.fresh.IdFault.TheVariants as faults;

    ghost from_gives = { λ _ e. e ≡ faults.NoMemory };

    fn from(_error: NoMemory) -> IdFault {
        IdFault::NoMemory
    }
}

/// The ids that are named, and where the search for a free one stands: those before `next` are named.
#[derive(Debug, Drop)]
pub struct Index {
    pub tally: Tally,
    pub next: u32,
}

/// Counts ids.
fn add_ids(tally: &mut Tally, ids: &[u32]) -> Result<(), NoMemory>
    ensures { OnOk result (Adds tally.old tally.new ids.now) }
{
    'ids: for id in ids {
        tally.add(*id)?;
    }
    Ok(())
}

/// How often each id is named.
fn tally_named(alloc: Global, lines: &Lines) -> Result<Tally, NoMemory>
    ensures { IfOk result (λ tally. Counts tally (named_ids lines.now)) }
{
    let mut tally = Tally::new(alloc);
    'lines: for k in 0..lines.count() {
        add_named(&mut tally, &lines.at(k))?;
    }
    Ok(tally)
}

/// The first id from a place on that is free, or one past the last.
pub fn next_free(tally: &Tally, from: u32) -> u32
    ensures { IsFirstFree tally.now from result }
{
    let mut next = from;
    'search: while next <= MOST_ID && tally.of(next) > 0 {
        next += 1;
    }
    next
}

impl Index {
    ghost use Rattle.std.specs.Prelude.{◌≡◌, ◌++◌, ◌∷◌, [], IfOk, IfSome};
    ghost use Rattle.spv_draft.specs.Named.{named_ids};
    ghost use Rattle.spv_draft.specs.Fresh.{Knows};
    ghost use Rattle.spv_draft.specs.Tallies.{Adds};

    /// The ids that instructions name, and those that were handed out.
    pub fn of(alloc: Global, lines: &Lines, given: &[u32]) -> Result<Index, NoMemory>
        ensures { IfOk result (λ index. Knows index (named_ids lines.now ++ given.now)) }
    {
        let mut tally = tally_named(alloc, lines)?;
        add_ids(&mut tally, given)?;
        Ok(Index { tally, next: 1 })
    }

    /// With an id that is now named. None where memory is wanting.
    pub fn with(self, id: u32) -> Option<Index>
        ensures next { IfSome result (λ index. index.next ≡ self.next) }
        ensures tally { IfSome result (λ index. Adds self.tally index.tally (id ∷ [])) }
    {
        let Index { mut tally, next } = self;
        match tally.add(id) {
            Ok(()) => Some(Index { tally, next }),
            Err(_) => None,
        }
    }
}

/// The ids that are known, with those that one instruction more names. None where they are not known, or memory is wanting.
pub fn with_names(index: Option<Index>, inst: &View) -> Option<Index>
    ensures { (named : List ℕ) → IfSome index (λ old. Knows old named) → IfSome result (λ new. Knows new (words_with names_id (seen inst.now) ++ named)) }
{
    let Index { mut tally, next } = index?;
    match add_named(&mut tally, inst) {
        Ok(()) => Some(Index { tally, next }),
        Err(_) => None,
    }
}

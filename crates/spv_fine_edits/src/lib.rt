//! Edits that keep what is used in a fine function available.
//!
//! The definitions are in `specs/`; each function here has laws or facts over them as its contract, and does nothing when it
//! is called.
#![tactic(auto)]

ghost use Rattle.spv_fine_edits.specs.Facts.{Apply, Needed, small, small_giving};
ghost use Rattle.spv_fine_edits.specs.Giving.{Giving};
ghost use Rattle.spv_fine_edits.specs.Laws.{Availability, DroppedByTests, FineWhereDropped, FineWhereGiven, FineWhereReplaced, FineWhereUsed, ReplacedByTests};

/// An edit, with what is known and promised before it and behind it, and what it gives.
pub trait Gives {
    ghost giving: { Giving };
}

/// What is known in a function and what is promised, and what is known behind an edit of it.
pub trait Promises {
    ghost available: { Availability };
}

/// A small case: each law stands of it too.
pub struct Small;

impl Gives for Small {
    ghost giving = { small_giving };
}

impl Promises for Small {
    ghost available = { small };
}

/// Where what an edit puts for steps and uses is given where it stands, a fine function stays so.
pub fn given_law<G: Gives>()
    ensures { FineWhereGiven G.giving }
{}

/// Where steps are dropped whose results nothing uses that stays, a fine function stays so, and promises what it promised but
/// for those results.
pub fn dropped_law<P: Promises>()
    ensures { FineWhereDropped P.available }
{}

/// Where uses are replaced by what is known, by what the step uses that defines what they used, or by what is available there,
/// and steps are dropped whose results nothing uses then, a fine function stays so, and promises what is put for what it
/// promised.
pub fn replaced_law<P: Promises>()
    ensures replaced { FineWhereReplaced P.available }
    ensures used { FineWhereUsed P.available }
{}

/// The two where tests tell what is known and promised: behind the edit tests tell it too.
pub fn tests_law()
    ensures dropped { DroppedByTests }
    ensures replaced { ReplacedByTests }
{}

/// The laws at the small case, as a caller gets them from their contracts.
pub fn laws_of_small()
    ensures given { FineWhereGiven small_giving }
    ensures dropped { FineWhereDropped small }
    ensures replaced { FineWhereReplaced small }
    ensures used { FineWhereUsed small }
{
    given_law::<Small>();
    dropped_law::<Small>();
    replaced_law::<Small>();
}

/// Small functions: the source of a copy put for it, and the copy dropped; a sum put for an equal one. What stays is not to use
/// what goes, what goes is not to be promised, and what is put is to be available.
pub fn facts_of_fine_edits()
    ensures apply { Apply }
    ensures needed { Needed }
{}

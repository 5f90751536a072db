//! What structured bodies of functions mean, and where they stand in a module: definitions and laws alone.
//!
//! The definitions are in `specs/`; each function here has facts or laws over them as its contract, and does nothing
//! when it is called.
#![tactic(auto)]

mod facts;

ghost use Rattle.spv_trees.specs.Laws.{AgreementLaw, BoundsLaw, ConverseLaw, ListingLaw, ProgramLaw};

pub use facts::{facts_of_bodies, facts_of_standing};

/// The machine over statements and the tree agree: where functions stand in a module with all that they call, both make
/// the same accesses under the same answers, and return with the same value and data, want an answer, or are stuck. So
/// the traces of an invocation that are over are those of the tree of the entry point's function.
pub fn agreement_law()
    ensures agrees { AgreementLaw }
    ensures converse { ConverseLaw }
    ensures program { ProgramLaw }
{}

/// What a tree does within some bounds on calls and turns, it does within greater ones.
pub fn bounds_law()
    ensures { BoundsLaw }
{}

/// The instructions of a sound function, as they are listed, stand as its tree says.
pub fn listing_law()
    ensures { ListingLaw }
{}

//! A module under change: instructions are put in, taken out and replaced, and ids that nothing names are handed out.
#![tactic(auto)]

mod bound;
pub mod draft;
pub mod fresh;
mod functions;
pub mod lines;
mod replacing;
pub mod tally;
pub mod uses;

pub use draft::Draft;
pub use fresh::IdFault;
pub use uses::Uses;

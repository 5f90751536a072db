//! What may stand once in a module and stands again: types and decorations.
#![tactic(auto)]

mod decorations;
mod keys;
mod marks;
mod types;
mod words;

pub use decorations::repeated_decorations;
pub use marks::Marks;
pub use types::repeated_types;

//! Walks over the tree of a function's structured body: one that replaces instructions and uses of ids, and one that only looks.
#![tactic(auto)]

mod editing;
mod editor;
mod facts;
mod laws;
mod taking;
mod visiting;
mod visitor;

pub use editing::edit;
pub use editor::Editor;
pub use facts::facts_of_editing;
pub use laws::{edited_law, shown_law, sound_law};
pub use visiting::visit;
pub use visitor::Visitor;

//! The rules on types, constants, decorations and global variables of a module, and what its declarations declare.
//!
//! The definitions are in `specs/`; each function here has laws or facts over them as its contract, and does nothing
//! when it is called.
#![tactic(auto)]

mod facts;
mod laws;

pub use facts::{facts_of_constants, facts_of_operations, facts_of_types, facts_of_variables};
pub use laws::{constants_law, declarations_law, types_law};

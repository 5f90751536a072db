//! What is asked of an edit of a function, so that the function is built again in the module that it then stands in; and the
//! module, where all its functions are: where instructions are dropped, lines rewritten, uses replaced, or a declaration
//! added.
//!
//! The definitions are in `specs/`; each function here has laws over them as its contract, and does nothing when it is
//! called.
#![tactic(auto)]

mod added;
mod laws;
mod replaced;
mod rewritten;
mod thinned;

pub use added::added_law;
pub use laws::{edited_law, module_law};
pub use replaced::replaced_law;
pub use rewritten::rewritten_law;
pub use thinned::thinned_law;

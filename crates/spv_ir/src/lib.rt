//! Modules of the profile in normal form, as passes hand them on.
#![tactic(auto)]

mod drafting;
mod holding;
mod laws;
mod reading;
mod watching;

pub use drafting::seal;
pub use holding::{Module, admit, copy, write};
pub use laws::module_law;
pub use watching::{Kept, Shown, Silent, Watcher};

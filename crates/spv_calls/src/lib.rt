//! The rules on calls and interfaces, 601 and 602, and the first broken rule from 601 to 606.
#![tactic(auto)]

mod body;
pub mod calls;
pub mod first;
mod globals;
mod interface;
mod keys;
pub mod laws;
mod order;
pub mod rule;
pub mod search;
mod settling;

pub use calls::Calls;
pub use first::first_broken;
pub use search::Search;
pub use spv_entries::Entries;

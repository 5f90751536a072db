//! The instructions of a module placed one behind the other, as the words that spell it have them.
#![tactic(auto)]

mod placing;
mod sizes;

pub use placing::{copied, placed};
pub use sizes::{check_size, grown, words_in};

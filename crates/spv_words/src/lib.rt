//! Modules as bytes and as words, and the header in front of a module's instructions.
#![tactic(auto)]

pub mod coding;
pub mod fault;

pub use coding::{bytes_of, header, words_of};
pub use fault::WordsFault;

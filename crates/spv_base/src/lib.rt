//! What every layer speaks of: lists of words and octets, ids, module headers, and refusals of a module.
#![tactic(auto)]

pub mod fault;
pub mod header;
pub mod id;
pub mod lists;
pub mod rule;

pub use fault::{Fault, NoMemory, Refusal};
pub use header::{Header, MAGIC, VERSION_1_6};
pub use id::Id;
pub use lists::{ByteList, Words};

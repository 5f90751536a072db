//! The walk through the structured control flow of a function: which blocks are walked, and in which context each of
//! them stands.
#![tactic(auto)]

mod closing;
mod falls;
mod going;
mod losing;
mod nesting;
mod refusing;
pub mod rows;
mod seen;
pub mod walked;
pub mod walking;

pub use closing::BackEdges;
pub use rows::{Level, Rows};
pub use spv_base::NoMemory;
pub use walked::Walked;
pub use walking::walk;

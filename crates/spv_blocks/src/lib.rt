//! A function as a list of basic blocks.
#![tactic(auto)]

pub mod block;
mod counting;
pub mod edges;
pub mod function;
pub mod insts;
pub mod labels;
pub mod laws;
mod parts;
pub mod table;

pub use block::{Block, Construct, End, Ins};
pub use edges::Edges;
pub use function::Function;
pub use insts::{Insts, starts};
pub use labels::Labels;
pub use table::Table;

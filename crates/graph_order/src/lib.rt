//! Orders of the places of a graph in which every edge leads onward.
#![tactic(auto)]

mod ordering;

pub use ordering::order;

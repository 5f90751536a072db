//! Which rules on structured control flow a block breaks by its own words in its place.
#![tactic(auto)]

pub mod ends;
pub mod fronts;
pub mod laws;
pub mod merging;
mod numbers;
pub mod opens;
pub mod parents;
pub mod phis;
pub mod refusals;
pub mod rule;

pub use ends::{end_fault, same_literal};
pub use fronts::front_fault;
pub use merging::{loop_fault, merge_fault};
pub use opens::open_fault;
pub use parents::parents_of;
pub use phis::phi_fault;
pub use refusals::earlier;

//! The first broken rule on structured control flow of a function, or the tables of one that breaks none.
#![tactic(auto)]

mod flows;
mod known;
mod looking;
mod owning;
mod shapes;

pub use flows::{Flow, first_broken};
pub use owning::has_own_labels;
pub use shapes::Shape;
pub use spv_base::{NoMemory, Refusal};

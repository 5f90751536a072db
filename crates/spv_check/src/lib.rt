//! The rules on the instructions of functions, 501 to 507: the first of them that a module breaks, or one of its functions.
#![tactic(auto)]

mod bodies;
mod checking;
mod listing;

pub use checking::{check, check_body};
pub use spv_base::{Fault, Refusal};

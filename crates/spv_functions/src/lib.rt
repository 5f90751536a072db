//! The tree of a function of a module, and the instructions of its normal form.
#![tactic(auto)]

mod functions;
mod kinds;
mod trees;

pub use functions::Functions;
pub use kinds::pointers;
pub use trees::{normalize, parse};

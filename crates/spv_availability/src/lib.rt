//! The rule 503 NotAvailable: whether what an instruction in a function uses is defined outside functions, before it in its
//! block, or in a block that every way to its own has passed.
#![tactic(auto)]

mod available;
mod places;
pub mod rule;

pub use available::are_available;
pub use places::Places;
pub use spv_base::NoMemory;

//! What functions spell whose instructions use what is available is fine.
//!
//! The definitions are in `specs/` and in `spv_fine`; each function here has laws or facts over them as its contract, and
//! does nothing when it is called.
#![tactic(auto)]

mod facts;
mod laws;

pub use facts::facts_of_promises;
pub use laws::read_law;

//! The normal form of a module.
#![tactic(auto)]

mod label_set;
mod laws;
mod normalizing;
mod staying;

pub use laws::norm_law;
pub use normalizing::norm;

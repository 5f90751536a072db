//! The bound of a module's ids.
#![tactic(auto)]

mod bound;

pub use bound::bound_of;

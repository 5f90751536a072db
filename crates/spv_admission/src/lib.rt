//! A module is admitted, and given in its normal form, or it is refused with its first broken rule.
#![tactic(auto)]

mod admitting;

pub use admitting::admit;

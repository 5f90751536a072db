//! The rules on the instructions of functions, 501, 502 and 504 to 507, and the first of them that a module breaks.
#![tactic(auto)]

pub mod first;
pub mod least;
pub mod rules;
pub mod standing;

pub use first::first_broken;
pub use least::lesser;
pub use rules::BodyRules;
pub use standing::Standing;

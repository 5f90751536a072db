//! The profile: the modules in which no rule is broken and no function nests too deep, and why another is refused.
//!
//! The definitions are in `specs/`; the function here has a law over them as its contract, and does nothing when it is
//! called.
#![tactic(auto)]

mod laws;

pub use laws::one_answer_law;

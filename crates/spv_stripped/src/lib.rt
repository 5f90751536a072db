//! A module without its debug instructions is a module again.
//!
//! The definitions are in `specs/`; each function here has laws over them as its contract, and does nothing when it is
//! called.
#![tactic(auto)]

mod strings;
mod stripping;

pub use strings::strings_law;
pub use stripping::stripped_law;

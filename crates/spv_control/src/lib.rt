//! The rules on structured control flow over the functions of a module, and the trees of its functions.
#![tactic(auto)]

mod reading;

pub use reading::{Read, parse_all};

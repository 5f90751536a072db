//! What the blocks of a function spell is listed in the normal form of the function.
//!
//! The definitions are in `specs/` and in `spv_spelling`; each function here has laws over them as its contract, and
//! does nothing when it is called.
#![tactic(auto)]

mod laws;

pub use laws::{normal_form_law, order_law};

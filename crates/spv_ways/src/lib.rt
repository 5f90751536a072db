//! The ways through a function from its first block: which blocks every way to a block passes, and what is so of them where
//! no rule on structured control flow is broken.
//!
//! The definitions are in `specs/`; each function here has laws over them as its contract, and does nothing when it is
//! called.
#![tactic(auto)]

mod laws;

pub use laws::{back_edges_law, forward_law, reached_law};

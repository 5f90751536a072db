//! The tree of a function's blocks, where no rule on structured control flow is broken.
#![tactic(auto)]

mod building;
mod functions;
mod lengths;
mod naming;
mod parsing;
mod pushing;
mod scene;
mod state;
mod ways;

pub use building::build;
pub use functions::{Parsed, parse_function};

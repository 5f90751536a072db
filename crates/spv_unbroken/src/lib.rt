//! Functions that break no rule on structured control flow are structured as trees: laws and facts alone.
//!
//! Each function here has laws or facts as its contract, and does nothing when it is called.
#![tactic(auto)]

mod facts;
mod laws;

pub use facts::{facts_of_arms, facts_of_unbroken};
pub use laws::{converse_law, pruning_law, unbroken_agreement_law, unbroken_stands_law};

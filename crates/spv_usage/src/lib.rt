//! The rules on storage classes, scopes and memory semantics in functions: 504 and 505.
#![tactic(auto)]

pub mod orderings;
pub mod rule;
pub mod rules;
pub mod stages;
pub mod storage;

pub use orderings::ordering_fits;
pub use rules::broken_usage_rule;
pub use stages::Stage;
pub use storage::storage_fits;

//! The scope of each block of a function in which no rule on structured control flow is broken: the blocks that every way from
//! the first block passes before it.
#![tactic(auto)]

mod leading;
mod scopes;

pub use scopes::Scopes;
pub use spv_base::NoMemory;

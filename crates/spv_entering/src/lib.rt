//! From which block each label of a function may be entered.
#![tactic(auto)]

mod cases;
mod entered;
mod filled;
mod filling;
mod flow;
mod stepping;

pub use entered::enterers;
pub use filled::tops;
pub use spv_base::NoMemory;

//! The optimiser as one call: from the words of its command and an outside to a status.
#![tactic(auto)]

mod answer;
mod job;
mod laws;
mod message;
mod reading;
pub mod run;
pub mod status;
mod strip;
mod writing;

pub use laws::answer_law;
pub use run::opt;
pub use status::{Status, UsageFault, UsageKind};

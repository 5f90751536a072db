//! Blocks of a function that breaks no rule, read from its instructions by their labels.
#![tactic(auto)]

mod begins;
pub mod close;
mod closing;
pub mod front;
pub mod heading;
mod pairing;
mod phi;
mod phis;
mod reading;
pub mod source;
mod staying;
mod text;
mod unmarked;

pub use close::{Close, Fork, LoopEnd, Text};
pub use front::{is_front, is_loop};
pub use heading::Heading;
pub use source::Source;

//! What a program of this project sees of the outside: named inputs and outputs, and standard
//! error. [`Outside`] is the trait that every such outside meets; [`Memory`] keeps all of it in
//! memory, and can be told which calls are to fail.

#![tactic(auto)]

mod calls;
mod copying;
mod files;
mod memory;
mod names;
mod schedule;

pub use calls::{Failed, Outside};
pub use memory::{Memory, NoMemory};
pub use schedule::CallKind;

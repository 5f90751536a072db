//! The structured body of a function as a tree that it owns, and the instructions that spell it.
#![tactic(auto)]

mod arrivals;
pub mod body;
mod branch;
pub mod control;
mod depth;
mod facts;
mod flattening;
mod gather;
mod making;
mod ordering;
mod phi;
mod switch;

pub use body::{
    Arm, Block, Body, Case, Choice, End, Entered, Entry, Exit, Front, Item, Leaving, Loop, Next,
    Opening, Parameter, Sequence, Split, Switch,
};
pub use control::Control;
pub use facts::facts_of_soundness;
pub use flattening::{flatten, flatten_into};

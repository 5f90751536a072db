//! The decorations of a module by their targets, and the rules that each stands on a target that takes it and
//! that variables outside functions are as their storage classes want them.
#![tactic(auto)]

pub mod decorations;
pub mod globals;
pub mod targets;

pub use decorations::Decorations;
pub use globals::global_fits;
pub use targets::decoration_fits;

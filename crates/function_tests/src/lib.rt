//! Tests of the crates on the functions of a module: blocks, control flow, trees, their edits, normal forms, and modules under change.
#![tactic(auto)]

#[cfg(test)]
mod blocks;
#[cfg(test)]
mod bound;
#[cfg(test)]
mod draft;
#[cfg(test)]
mod faults;
#[cfg(test)]
mod flow;
#[cfg(test)]
mod functions;
#[cfg(test)]
mod modules;
#[cfg(test)]
mod norm;
#[cfg(test)]
mod parse;

//! Tests of walks over the tree of a function: an editor and a visitor over a function with each kind of item.
#![tactic(auto)]

#[cfg(test)]
mod editing;

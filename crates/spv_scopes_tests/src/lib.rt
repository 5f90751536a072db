//! Tests of scopes, in functions that are read from modules. Nothing else stands here, so that the crate of scopes need not stand
//! on the one that reads functions as trees.

#![tactic(auto)]

#[cfg(test)]
mod tests;

//! Tests of the crates on instructions and on modules as lists of them.
#![tactic(auto)]

#[cfg(test)]
mod grammar;
#[cfg(test)]
mod modules;

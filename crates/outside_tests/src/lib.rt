//! Tests of the outside that is kept in memory.
#![tactic(auto)]

#[cfg(test)]
mod memory;

//! Tests of modules as passes hand them on. Nothing else stands here.

#![tactic(auto)]

#[cfg(test)]
mod modules;

//! Tests of the crates on lists, bytes and words, and graphs.
#![tactic(auto)]

#[cfg(test)]
mod base;
#[cfg(test)]
mod graphs;
#[cfg(test)]
mod orders;
#[cfg(test)]
mod passed;
#[cfg(test)]
mod words;

//! Tests of the optimiser as one call, over an outside that is kept in memory. Nothing else stands here: each test
//! is proved too, and apart from the optimiser's own crate none of its proofs has to wait for them.

#![tactic(auto)]

#[cfg(test)]
mod front_end;
#[cfg(test)]
mod late_rules;
#[cfg(test)]
mod rules;
#[cfg(test)]
mod tests;

//! Tests of the rule on definitions that are not available, on functions whose scopes are found by the crates below.
#![tactic(auto)]

#[cfg(test)]
mod tests;

//! Tests of the evaluation: what the contracts say, at worked values and at the edges. The wanted values come from a
//! reading of the rules over whole numbers that is apart from the evaluation.
#![tactic(auto)]

#[cfg(test)]
mod edges;
#[cfg(test)]
mod evaluated;
#[cfg(test)]
mod values;

//! Tests of the crates on modules as a whole: control flow, the instructions of functions, and admission.
#![tactic(auto)]

#[cfg(test)]
mod admission;
#[cfg(test)]
mod check;
#[cfg(test)]
mod control;
#[cfg(test)]
mod whole;

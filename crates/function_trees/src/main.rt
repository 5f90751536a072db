//! A tool for measurements: reads a module from standard input, makes the tree of each of its functions and the instructions
//! that spell it, and prints how many functions and words these are and how deep they nest, or why the module is refused.
#![tactic(auto)]

mod failure;
mod reading;
mod trees;

use failure::Failure;
use reading::read_module;
use std::process::ExitCode;
use trees::{Counts, measure};

/// What is measured of the module that standard input holds.
fn run(rt: &HostRuntime) -> Result<Counts, Failure> {
    let flat = read_module(rt)?;
    Ok(measure(rt.alloc(), &flat)?)
}

fn main(rt: HostRuntime) -> ExitCode {
    match run(&rt) {
        Ok(counts) => match println!(rt; "{counts}") {
            Ok(()) => ExitCode::SUCCESS,
            Err(_) => ExitCode::FAILURE,
        },
        Err(failure) => {
            let _ = eprintln!(rt; "error: {failure}");
            ExitCode::FAILURE
        }
    }
}

//! The command `spirv-opt`: hands the words of its command line to the optimiser, with files and
//! standard streams as its outside, and ends with the number of its status.

#![tactic(auto)]

mod host;
mod streams;
mod words;

use host::Host;
use opt_top::opt;
use std::process::ExitCode;
use words::gather;

fn main(rt: HostRuntime) -> ExitCode {
    let number = match gather(&rt) {
        Ok(words) => {
            let mut host = Host::new(&rt, rt.stderr());
            opt(rt.alloc(), words.as_slice(), &mut host).number()
        }
        Err(fault) => {
            // Where the message cannot be written, the status says it alone.
            let _ = eprintln!(rt; "error: {fault}");
            fault.number()
        }
    };
    ExitCode::from(number)
}

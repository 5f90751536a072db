ghost use Rattle.std.specs.Prelude.{◌≡◌};
ghost use Rattle.opt_top.specs.Ends.{Stops, Ends, Completes};
ghost use Rattle.opt_top.specs.Job.{texts, job_of as job_in};

use crate::answer::answer;
use crate::job::job_of;
use crate::message::tell_message;
use crate::reading::{MOST_BYTES, Stop, read_input};
use crate::status::{Status, UsageFault, UsageKind};
use crate::writing::write_output;
use opt_outside::Outside;
use spv_base::Fault;
use std::alloc::Global;
use std::rc::RcStr;

/// The limit on the bytes of a file.
const TOO_LONG: u32 = 900;

/// The limit on how deep constructs of a function nest.
const NESTING: u32 = 901;

/// Runs the job that the words of a command give, and tells nothing of it.
fn run<O: Outside>(alloc: Global, words: &[RcStr], out: &mut O) -> Status
    ensures stops { Stops (job_in (texts words.now)) result (O.seen out.old) (O.seen out.new) }
    ensures told { (O.seen out.new).told ≡ (O.seen out.old).told }
    ensures tell_faults { (O.seen out.new).tell_faults ≡ (O.seen out.old).tell_faults }
{
    let Some(job) = job_of(words) else {
        return Status::Usage(UsageFault {
            kind: UsageKind::NotYet,
            config: 0,
            place: 0,
        });
    };
    let bytes = match read_input(alloc, job.input, out) {
        Ok(bytes) => bytes,
        Err(Stop::Failed) => return Status::ReadFault,
        Err(Stop::NoMemory) => return Status::NoMemory,
    };
    if bytes.len() > MOST_BYTES {
        return Status::Limit(TOO_LONG);
    }
    let output = match answer(alloc, &bytes) {
        Ok(output) => output,
        Err(Fault::Refused(refusal)) => return Status::Refused(refusal),
        Err(Fault::Nesting) => return Status::Limit(NESTING),
        Err(Fault::NoMemory) => return Status::NoMemory,
    };
    match write_output(job.output, output.as_slice(), out) {
        Ok(()) => Status::Done,
        Err(_) => Status::WriteFault,
    }
}

/// The optimiser: runs the job that the words of a command give, without the program's name.
pub fn opt<O: Outside>(alloc: Global, words: &[RcStr], out: &mut O) -> Status
    ensures ends { Ends (job_in (texts words.now)) result (O.seen out.old) (O.seen out.new) }
    ensures complete { Completes (job_in (texts words.now)) result (O.seen out.old) (O.seen out.new) }
{
    let status = run(alloc, words, out);
    tell_message(&status, out);
    status
}

ghost use Rattle.std.specs.Prelude.{◌≡◌};

use spv_base::Refusal;

/// How a run of the optimiser ended.
#[derive(Clone, Copy, Debug, PartialEq, Eq)]
pub enum Status {
    /// The whole output was written.
    Done,
    /// The module breaks a rule.
    Refused(Refusal),
    /// The words are no job.
    Usage(UsageFault),
    /// Opening or reading a file failed.
    ReadFault,
    /// Opening or writing the output failed.
    WriteFault,
    /// A stated limit was passed.
    Limit(u32),
    /// Memory was wanting.
    NoMemory,
}

/// What is wrong with the words of a command, and where: the place of a word, or 0.
#[derive(Clone, Copy, Debug, PartialEq, Eq)]
pub struct UsageFault {
    pub kind: UsageKind,
    /// The place of the config file's word, or 0 for the command line.
    pub config: u64,
    pub place: u64,
}

/// Kinds of faults of the words.
#[derive(Clone, Copy, Debug, PartialEq, Eq)]
pub enum UsageKind {
    /// Words of a form that is not read yet.
    NotYet,
}

impl Status {
    ghost use Rattle.opt_top.specs.Status.{number_of};

    /// The exit status, from 0 to 6 in the order of the variants. It takes no memory.
    pub fn number(&self) -> u8
        ensures { result ≡ number_of self.now }
    {
        match self {
            Status::Done => 0,
            Status::Refused(_) => 1,
            Status::Usage(_) => 2,
            Status::ReadFault => 3,
            Status::WriteFault => 4,
            Status::Limit(_) => 5,
            Status::NoMemory => 6,
        }
    }
}

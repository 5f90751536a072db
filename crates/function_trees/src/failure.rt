ghost use Rattle.std.specs.Prelude.{◌≡◌};

use spv_base::{Fault, NoMemory};
use spv_words::WordsFault;
use std::alloc::{AllocError, AllocFailed};
use std::io;
use thiserror::Error;

/// Why a module was not measured; displayed as its message to the user.
#[derive(Debug, Drop, Error)]
pub(crate) enum Failure {
    /// Standard input could not be read, or memory was wanting for it.
    #[error("{0}")]
    Input(io::Error),
    /// The input has 2^34 bytes or more.
    #[error("the input is too long")]
    TooLong,
    /// The bytes are no words of a module.
    #[error("{0}")]
    Bytes(WordsFault),
    /// The module is refused, or memory was wanting.
    #[error("{0}")]
    Module(Fault),
}

impl From<io::Error> for Failure {
    fn from(error: io::Error) -> Failure {
        Failure::Input(error)
    }
}

impl From<WordsFault> for Failure {
    fn from(fault: WordsFault) -> Failure {
        Failure::Bytes(fault)
    }
}

impl From<Fault> for Failure {
    fn from(fault: Fault) -> Failure {
        Failure::Module(fault)
    }
}

impl From<NoMemory> for Failure {
    fn from(_: NoMemory) -> Failure {
        Failure::Module(Fault::NoMemory)
    }
}

ghost use Rattle.std.specs.Prelude.{◌≡◌};

use std::alloc::{AllocError, AllocFailed};
use std::io::ErrorKind;
use std::rc::RcStr;
use std::rt::Env;
use std::{env, io};
use thiserror::Error;

/// Why the words of the command line could not be gathered; displayed as its message to the user.
#[derive(Clone, Copy, Debug, PartialEq, Eq, Error)]
pub(crate) enum WordsFault {
    /// A word is not UTF-8.
    #[error("usage: NotYet")]
    NotText,
    /// Memory was wanting.
    #[error("out of memory")]
    NoMemory,
}

impl WordsFault {
    /// The exit status: that of a faulty command line, or that of want of memory.
    pub(crate) fn number(self) -> u8
        ensures text { self ≡ WordsFault.NotText → result ≡ 2 }
        ensures memory { self ≡ WordsFault.NoMemory → result ≡ 6 }
    {
        match self {
            WordsFault::NotText => 2,
            WordsFault::NoMemory => 6,
        }
    }
}

impl From<AllocError> for WordsFault {
    ghost use Rattle.std.specs.Prelude.{◌≡◌};
    ghost use Rattle.spirv_opt.specs.declared.words.WordsFault.TheVariants.{NoMemory};

    ghost from_gives = { λ _ e. e ≡ NoMemory };

    fn from(_: AllocError) -> WordsFault {
        WordsFault::NoMemory
    }
}

impl<T: Drop> From<AllocFailed<T>> for WordsFault {
    ghost use Rattle.std.specs.Prelude.{◌≡◌};
    ghost use Rattle.spirv_opt.specs.declared.words.WordsFault.TheVariants.{NoMemory};

    ghost from_gives = { λ _ e. e ≡ NoMemory };

    fn from(_: AllocFailed<T>) -> WordsFault {
        WordsFault::NoMemory
    }
}

impl From<io::Error> for WordsFault {
    ghost use Rattle.std.specs.Prelude.{◌≡◌, ◌↔◌};
    ghost use Rattle.std.specs.declared.io.ErrorKind.TheVariants.{OutOfMemory};
    ghost use Rattle.std.specs.IoError.{error_kind};
    ghost use Rattle.spirv_opt.specs.declared.words.WordsFault.TheVariants.{NoMemory};

    // Want of memory stays what it is; every other error is a word that is no text.
    ghost from_gives = { λ error e. (e ≡ NoMemory) ↔ (error_kind error ≡ OutOfMemory) };

    fn from(error: io::Error) -> WordsFault {
        match error.kind() {
            ErrorKind::OutOfMemory => WordsFault::NoMemory,
            _ => WordsFault::NotText,
        }
    }
}

/// The words of the command line, without the program's name.
pub(crate) fn gather(rt: &(impl Env + AllocGlobal)) -> Result<Vec<RcStr>, WordsFault> {
    let mut words = Vec::new(rt.alloc());
    'words: for word in env::args(rt)?.skip(1) {
        words.push(RcStr::from_string(word)?)?;
    }
    Ok(words)
}

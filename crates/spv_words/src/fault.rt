use spv_base::NoMemory;
use thiserror::Error;

/// Why bytes or words are no module.
#[derive(Clone, Copy, Debug, PartialEq, Eq, Error)]
pub enum WordsFault {
    /// Too short for a header: fewer than 20 bytes, or fewer than five words.
    #[error("too short for a module header")]
    ShortInput,
    /// The number of bytes is no multiple of 4.
    #[error("the length is no multiple of 4 bytes")]
    OddLength,
    /// The first word is not the magic number; of bytes, in neither byte order.
    #[error("not a SPIR-V module")]
    NotSpirv,
    /// Memory was wanting.
    #[error("out of memory")]
    NoMemory,
}

impl From<NoMemory> for WordsFault {
    ghost use Rattle.std.specs.Prelude.{◌≡◌};
    ghost use Rattle.spv_words.specs.declared.fault.WordsFault.TheVariants as faults;

    ghost from_gives = { λ _ e. e ≡ faults.NoMemory };

    fn from(_error: NoMemory) -> WordsFault {
        WordsFault::NoMemory
    }
}

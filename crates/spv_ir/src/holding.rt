ghost use Rattle.std.specs.Prelude.{◌≡◌, ◌<◌, ◌^◌, length, IfOk};
ghost use Rattle.spv_words.specs.Words.{HasHeader};
ghost use Rattle.spv_module.specs.Code.{spelling};
ghost use Rattle.spv_admission.specs.Admission.{Admits};

use spv_base::{Fault, NoMemory, Words};
use spv_module::{Flat, encode};
use spv_placing::{check_size, copied, placed};
use std::alloc::Global;
use std::marker::Model;

/// A module of the profile in normal form, of which no function nests deeper than 255. Its bound is one more than the greatest
/// id that it names, and it has fewer than 2^32 words.
#[derive(Debug, Drop)]
pub struct Module {
    flat: Flat,
}

impl Model for Module {
    ghost use Rattle.std.specs.Prelude.{◌<◌, ◌^◌, length};
    ghost use Rattle.spv_module.specs.Code.{Code, spelling};
    ghost use Rattle.spv_profile.specs.Profile.{IsModule};

    ghost Value = { Code };

    ghost view = { λ m. m.flat };

    ghost invariant = { λ m. IsModule m.flat × (length (spelling m.flat) < 2 ^ 32) };
}

impl Module {
    ghost use Rattle.spv_profile.specs.Profile.{IsModule};

    /// The module of these instructions.
    pub(crate) fn new(flat: Flat) -> Module
        requires holds { IsModule flat }
        requires small { length (spelling flat) < 2 ^ 32 }
        ensures { result ≡ flat }
    {
        Module { flat }
    }

    /// Its header and its instructions.
    pub fn flat(&self) -> &Flat
        ensures same { result.now ≡ self.now }
        ensures holds { IsModule result.now }
    {
        &self.flat
    }

    /// What holds its header and its instructions.
    pub(crate) fn into_flat(self) -> Flat
        ensures same { result ≡ self }
        ensures holds { IsModule result }
        ensures small { length (spelling result) < 2 ^ 32 }
    {
        self.flat
    }
}

/// The module that words spell, in its normal form: at least five and fewer than 2^32 words, with the magic number first. It
/// means what the words mean.
///
/// Refuses by the first broken rule of the lowest group that has one: the rules on the header and on instructions (101 to
/// 109), on the layout (201 to 205), on declarations (301 to 309), on structured control flow (401 to 408, 410), on the
/// instructions of functions (501 to 507), and on the whole module (601 to 607). Where no rule up to control flow is broken,
/// it nests too deep exactly where a function nests deeper than 255.
pub fn admit(alloc: Global, words: &[u32]) -> Result<Module, Fault>
    requires header { HasHeader words.now }
    requires small { length words.now < 2 ^ 32 }
    ensures { Admits words.now result }
{
    let norm = spv_admission::admit(alloc, words)?;
    norm.insts().each_is_instruction();
    check_size(&norm)?;
    Ok(Module::new(placed(norm)))
}

/// The words of a module.
pub fn write(alloc: Global, m: &Module) -> Result<Words, NoMemory>
    ensures { IfOk result (λ words. words ≡ spelling m.now) }
{
    encode(alloc, &m.flat)
}

/// A module equal to one.
pub fn copy(alloc: Global, m: &Module) -> Result<Module, NoMemory>
    ensures { IfOk result (λ same. same ≡ m.now) }
{
    Ok(Module::new(copied(alloc, &m.flat)?))
}

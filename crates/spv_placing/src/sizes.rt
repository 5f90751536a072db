ghost use Rattle.std.specs.Prelude.{◌≡◌, ◌+◌, ◌<◌, ◌^◌, length, IfOk, IsOk, OnOk};
ghost use Rattle.spv_module.specs.Code.{spelling};
ghost use Rattle.spv_module.specs.View.{seen};
ghost use Rattle.spv_placing.specs.Placing.{size_in};

use spv_base::NoMemory;
use spv_grammar::operands::count_of;
use spv_module::{Flat, InstList, View};

/// The words of a header.
pub(crate) const HEADER: u32 = 5;

/// The number of words of an instruction.
pub fn words_in(inst: &View) -> u32
    ensures { result ≡ length (seen inst.now).words }
{
    u32::from(count_of(inst.words[0]))
}

/// The number of words with those of an instruction more. 2^32 words or more are want of memory.
pub fn grown(size: u32, inst: &View) -> Result<u32, NoMemory>
    ensures sum { IfOk result (λ more. more ≡ size + length (seen inst.now).words) }
    ensures small { IfOk result (λ more. more < 2 ^ 32) }
    ensures fits { size + length (seen inst.now).words < 2 ^ 32 → IsOk result }
{
    match size.checked_add(words_in(inst)) {
        Some(more) => Ok(more),
        None => Err(NoMemory),
    }
}

/// The words of a header and of instructions. 2^32 words or more are want of memory.
fn size_of(insts: &InstList) -> Result<u32, NoMemory>
    ensures sum { IfOk result (λ words. words ≡ size_in insts.now) }
    ensures small { IfOk result (λ words. words < 2 ^ 32) }
{
    let mut words = HEADER;
    'instructions: for k in 0..insts.count() {
        words = grown(words, &insts.at(k))?;
    }
    Ok(words)
}

/// Sees that a module has fewer than 2^32 words. More are want of memory.
pub fn check_size(flat: &Flat) -> Result<(), NoMemory>
    ensures { OnOk result (length (spelling flat.now) < 2 ^ 32) }
{
    size_of(flat.insts())?;
    Ok(())
}

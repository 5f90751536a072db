ghost use Rattle.std.specs.Prelude.{◌≡◌, ◌<◌, ◌≤◌, ◌^◌, ℕ, List, IfOk, Ok, length};
ghost use Rattle.spv_bound.specs.Bound.{bound_of_ids};
ghost use Rattle.spv_machine.specs.Dispatch.{Dispatch};
ghost use Rattle.spv_machine.specs.Laws.{MeansSame};
ghost use Rattle.spv_module.specs.Code.{code_of, spelling};
ghost use Rattle.spv_norm_means.specs.Laws.{MeansAsMuch};
ghost use Rattle.spv_words.specs.Words.{bytes_of_words, words_in};
ghost use Rattle.opt_top.specs.Means.{Means};
ghost use Rattle.opt_top.specs.Answer.{Answers, AnswersNorm, ByteFault};
ghost use Rattle.spv_admission.specs.Admission.{HasTrees};
ghost use Rattle.spv_profile.specs.Profile.{IsModule};
ghost use Rattle.spv_stripped.specs.Strip.{stripped};

use crate::strip::strip_debug;
use spv_admission::admit;
use spv_base::{ByteList, Fault, NoMemory, Refusal, rule};
use spv_module::{Flat, encode};
use spv_words::{WordsFault, bytes_of, words_of};
use std::alloc::Global;

/// The refusal of bytes.
fn byte_fault(fault: WordsFault) -> Fault
    ensures { ByteFault fault result }
{
    let rule = match fault {
        WordsFault::ShortInput => rule::SHORT_INPUT,
        WordsFault::OddLength => rule::ODD_LENGTH,
        WordsFault::NotSpirv => rule::NOT_SPIRV,
        WordsFault::NoMemory => return Fault::NoMemory,
    };
    Fault::Refused(Refusal { rule, at: 0 })
}

/// The normal form of the module in bytes of at most 4,194,304, or why it is refused.
fn read_module(alloc: Global, bytes: &[u8]) -> Result<Flat, Fault>
    requires { length bytes.now ≤ 4194304 }
    ensures answer { AnswersNorm bytes.now result }
    ensures means { IfOk result (λ norm. (words : List ℕ) → words_in bytes.now ≡ Ok words → MeansAsMuch (code_of words) norm) }
    ensures bound { IfOk result (λ norm. bound_of_ids norm.insts < 2 ^ 32) }
    ensures module { IfOk result (λ norm. IsModule (code_of (spelling norm)) × HasTrees (code_of (spelling norm)).insts) }
{
    let words = match words_of(alloc, bytes) {
        Ok(words) => words,
        Err(fault) => return Err(byte_fault(fault)),
    };
    let norm = admit(alloc, words.as_slice())?;
    let _bound = norm.header().bound;
    Ok(norm)
}

/// Says that a module means the same without what says something of its source alone, written and read again, and is a
/// module of the profile in normal form again. Does nothing.
fn stripped_means_same(flat: &Flat)
    ensures same { (d : Dispatch) → MeansSame flat.now (code_of (spelling (stripped flat.now))) d }
    ensures module { IsModule (code_of (spelling flat.now)) → HasTrees (code_of (spelling flat.now)).insts → IsModule (code_of (spelling (stripped flat.now))) }
{
    flat.insts().each_is_instruction();
}

/// The bytes of a module without what says something of its source alone.
fn write_module(alloc: Global, flat: &Flat) -> Result<ByteList, NoMemory>
    requires { bound_of_ids flat.now.insts < 2 ^ 32 }
    ensures bytes { IfOk result (λ bytes. bytes ≡ bytes_of_words (spelling (stripped flat.now))) }
    ensures reads_back { IfOk result (λ bytes. words_in bytes ≡ Ok (spelling (stripped flat.now))) }
{
    let flat = strip_debug(alloc, flat)?;
    let words = encode(alloc, &flat)?;
    bytes_of(alloc, words.as_slice())
}

/// The bytes to be written for an input of at most 4,194,304 bytes, or why it is refused.
pub fn answer(alloc: Global, bytes: &[u8]) -> Result<ByteList, Fault>
    requires { length bytes.now ≤ 4194304 }
    ensures answer { Answers bytes.now result }
    ensures means { IfOk result (λ output. Means bytes.now output) }
{
    let norm = read_module(alloc, bytes)?;
    stripped_means_same(&norm);
    Ok(write_module(alloc, &norm)?)
}

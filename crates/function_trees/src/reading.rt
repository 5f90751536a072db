ghost use Rattle.std.specs.Prelude.{◌<◌, ◌^◌, IfOk, length};
ghost use Rattle.spv_words.specs.Words.{HasHeader};
ghost use Rattle.spv_functions.specs.Functions.{IsDeclared};

use crate::failure::Failure;
use spv_base::{Fault, Words};
use spv_module::{Flat, decode};
use spv_types::tables;
use spv_words::words_of;
use std::alloc::Global;
use std::io::{Input, Read};

/// The bytes of 2^32 words, of which a module has fewer.
const TOO_MANY_BYTES: usize = 17_179_869_184;

/// The module in words, refused by the first broken rule on its instructions, layout and declarations.
fn decode_declared(alloc: Global, words: &[u32]) -> Result<Flat, Fault>
    requires header { HasHeader words.now }
    requires small { length words.now < 2 ^ 32 }
    ensures { IfOk result (λ code. IsDeclared code.insts) }
{
    let flat = decode(alloc, words)?;
    tables(alloc, &flat)?;
    Ok(flat)
}

/// The module that standard input holds.
pub(crate) fn read_module(rt: &(impl Input + AllocGlobal)) -> Result<Flat, Failure>
    ensures { IfOk result (λ code. IsDeclared code.insts) }
{
    let mut bytes = Vec::new(rt.alloc());
    rt.reader().read_to_end(&mut bytes)?;
    if bytes.len() >= TOO_MANY_BYTES {
        return Err(Failure::TooLong);
    }
    let words = words_of(rt.alloc(), &bytes)?;
    Ok(decode_declared(rt.alloc(), words.as_slice())?)
}

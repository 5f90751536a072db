ghost use Rattle.std.specs.Prelude.{◌≡◌, ◌<◌, ◌^◌, length, IfOk};
ghost use Rattle.spv_module.specs.Code.{code_of, spelling};
ghost use Rattle.spv_module.specs.List.{instruction_at, instructions_in, pool_roles, pool_words, AreSpans, IsSpan};
ghost use Rattle.spv_placing.specs.Placing.{placed_from, size_in};

use crate::sizes::{HEADER, words_in};
use spv_base::NoMemory;
use spv_module::{Flat, InstList, Pool, Span};
use std::alloc::Global;

/// The number of words of the instruction of a span.
fn span_words(pool: &Pool, span: Span) -> u32
    requires { IsSpan (pool_words pool.now) (pool_roles pool.now) span }
    ensures { result ≡ length (instruction_at (pool_words pool.now) span).words }
{
    words_in(&pool.view(span.offset, span.start, span.end))
}

/// Places instructions one behind the other, the first of them behind the header.
fn place_all(pool: &Pool, spans: &mut Vec<Span>)
    requires are { AreSpans pool.now spans.old.items }
    requires small { size_in (instructions_in pool.now spans.old.items) < 2 ^ 32 }
    ensures are { AreSpans pool.now spans.new.items }
    ensures placed { instructions_in pool.now spans.new.items ≡ placed_from 5 (instructions_in pool.now spans.old.items) }
{
    let mut at = HEADER;
    'spans: for k in 0..spans.len() {
        let span = spans[k];
        spans[k] = Span { offset: at, ..span };
        at += span_words(pool, span);
    }
}

/// The module that the words of a module spell: its instructions stand one behind the other. It takes no memory.
pub fn placed(flat: Flat) -> Flat
    requires { length (spelling flat) < 2 ^ 32 }
    ensures same { result ≡ code_of (spelling flat) }
    ensures small { length (spelling result) < 2 ^ 32 }
{
    let (header, insts, sections) = flat.into_parts();
    let (pool, mut spans) = insts.into_parts();
    place_all(&pool, &mut spans);
    Flat::from_parts(header, InstList::from_parts(pool, spans), sections)
}

/// A copy of a list of instructions.
fn copy_of(alloc: Global, all: &InstList) -> Result<InstList, NoMemory>
    ensures { IfOk result (λ insts. insts ≡ all.now) }
{
    let mut insts = InstList::new(alloc);
    'instructions: for k in 0..all.count() {
        insts.push_view(all.at(k))?;
    }
    Ok(insts)
}

/// A copy of a module.
pub fn copied(alloc: Global, flat: &Flat) -> Result<Flat, NoMemory>
    ensures { IfOk result (λ same. same ≡ flat.now) }
{
    let insts = copy_of(alloc, flat.insts())?;
    Flat::new(alloc, flat.header(), insts)
}

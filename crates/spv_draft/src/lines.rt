ghost use Rattle.std.specs.Prelude.{◌≡◌, ◌<◌, ◌≤◌, ◌^◌, ◌∷◌, [], Some, IsOk, IfOk, OnErr, List, length, slice_get, slice_set, take, drop};
ghost use Rattle.spv_module.specs.Instruction.{Instruction};
ghost use Rattle.spv_module.specs.List.{instructions_in, instruction_at, pool_roles, pool_words, AreSpans, IsSpan};
ghost use Rattle.spv_module.specs.View.{seen};
ghost use Rattle.spv_placing.specs.Placing.{size_in};
ghost use Rattle.spv_draft.specs.Lines.{Extends, Keeps, spliced};

use spv_base::NoMemory;
use spv_module::{InstList, Pool, Span, View};
use spv_placing::{grown, words_in};
use std::alloc::Global;
use std::marker::Model;

/// The instructions of a draft. Their words stand in a pool, in which words that no instruction has any more stay behind. The
/// header and the instructions have fewer than 2^32 words, and a growth past that is want of memory.
#[derive(Debug, Drop)]
pub struct Lines {
    pool: Pool,
    spans: Vec<Span>,
    /// The words of a header and of the instructions.
    size: u32,
}

impl Model for Lines {
    ghost use Rattle.std.specs.Prelude.{List};
    ghost use Rattle.spv_module.specs.Instruction.{Instruction};
    ghost use Rattle.spv_module.specs.List.{instructions_in, AreSpans};
    ghost use Rattle.spv_draft.specs.Lines.{HasSize};

    ghost Value = { List Instruction };

    ghost view = { λ lines. instructions_in lines.pool lines.spans.items };

    ghost invariant = { λ lines. AreSpans lines.pool lines.spans.items × HasSize lines.size (instructions_in lines.pool lines.spans.items) };
}

/// The instruction of a span.
fn view(pool: &Pool, span: Span) -> View<'_>
    requires { IsSpan (pool_words pool.now) (pool_roles pool.now) span }
    ensures { seen result ≡ instruction_at (pool_words pool.now) span }
{
    pool.view(span.offset, span.start, span.end)
}

/// The words of a header and of the instructions of spans. 2^32 words or more are want of memory.
fn size_of(pool: &Pool, spans: &[Span]) -> Result<u32, NoMemory>
    requires { AreSpans pool.now spans.now }
    ensures sum { IfOk result (λ words. words ≡ size_in (instructions_in pool.now spans.now)) }
    ensures fits { size_in (instructions_in pool.now spans.now) < 2 ^ 32 → IsOk result }
{
    let mut words = 5;
    'spans: for k in 0..spans.len() {
        words = grown(words, &view(pool, spans[k]))?;
    }
    Ok(words)
}

/// Adds the words of an instruction to a pool. What stood in it stays.
fn append(pool: &mut Pool, inst: &View) -> Result<Span, NoMemory>
    ensures ok { (spans : List Span) → AreSpans pool.old spans → IfOk result (λ span. Extends pool.old pool.new spans (span ∷ []) (seen inst.now ∷ [])) }
    ensures err { (spans : List Span) → AreSpans pool.old spans → OnErr result (Keeps pool.old pool.new spans) }
{
    let start = pool.count();
    pool.append(*inst)?;
    Ok(Span {
        offset: inst.offset,
        start,
        end: pool.count(),
    })
}

/// Adds the words of the instructions of a list to a pool. What stood in it stays.
fn append_list(alloc: Global, pool: &mut Pool, list: &InstList) -> Result<Vec<Span>, NoMemory>
    ensures ok { (spans : List Span) → AreSpans pool.old spans → IfOk result (λ more. Extends pool.old pool.new spans more.items list.now) }
    ensures err { (spans : List Span) → AreSpans pool.old spans → OnErr result (Keeps pool.old pool.new spans) }
{
    let mut more = Vec::new(alloc);
    'instructions: for k in 0..list.count() {
        let span = append(pool, &list.at(k))?;
        more.push(span)?;
    }
    Ok(more)
}

/// The spans before a place.
fn before(spans: &[Span], place: usize) -> &[Span]
    ensures { result.now ≡ take place spans.now }
{
    let (front, _) = spans.split_at(place.min(spans.len()));
    front
}

/// The spans from a place on.
fn behind(spans: &[Span], place: usize) -> &[Span]
    ensures { result.now ≡ drop place spans.now }
{
    let (_, back) = spans.split_at(place.min(spans.len()));
    back
}

/// Spans with others in the place of those from `start` up to `end`.
fn splice(
    alloc: Global,
    spans: &[Span],
    start: usize,
    end: usize,
    more: &[Span],
) -> Result<Vec<Span>, NoMemory>
    ensures { IfOk result (λ made. made.items ≡ spliced spans.now start end more.now) }
{
    let mut made = Vec::new(alloc);
    made.extend_from_slice(before(spans, start))?;
    made.extend_from_slice(more)?;
    made.extend_from_slice(behind(spans, end))?;
    Ok(made)
}

impl Lines {
    ghost use Rattle.std.specs.Prelude.{true, OnOk};
    ghost use Rattle.std.specs.List.{insert as inserted, remove as removed};
    ghost use Rattle.spv_draft.specs.Named.{uses_at, with_word};

    /// The instructions of a list.
    pub fn of(insts: InstList) -> Lines
        requires { size_in insts < 2 ^ 32 }
        ensures { result ≡ insts }
    {
        let (pool, spans) = insts.into_parts();
        let size = size_of(&pool, &spans).unwrap();
        Lines { pool, spans, size }
    }

    /// The list of the instructions.
    pub fn into_list(self) -> InstList
        ensures same { result ≡ self }
        ensures small { size_in self < 2 ^ 32 }
    {
        InstList::from_parts(self.pool, self.spans)
    }

    /// The allocator that the instructions take memory from.
    pub fn alloc(&self) -> Global {
        *self.spans.allocator()
    }

    /// The number of instructions.
    pub fn count(&self) -> usize
        ensures same { result ≡ length self.now }
        ensures few { length self.now < 2 ^ 32 }
    {
        let _words = self.size;
        self.spans.len()
    }

    /// The k-th instruction, counted from 0.
    pub fn at(&self, k: usize) -> View<'_>
        requires { k < length self.now }
        ensures { slice_get self.now k ≡ Some (seen result) }
    {
        view(&self.pool, self.spans[k])
    }

    /// Puts an instruction at place k; the later ones follow it. After NoMemory the instructions are as before.
    pub fn insert(&mut self, k: usize, inst: &View) -> Result<(), NoMemory>
        requires { k ≤ length self.old }
        ensures ok { OnOk result (self.new ≡ inserted self.old k (seen inst.now)) }
        ensures err { OnErr result (self.new ≡ self.old) }
    {
        let size = grown(self.size, inst)?;
        self.spans.reserve(1)?;
        let span = append(&mut self.pool, inst)?;
        self.spans.insert(k, span)?;
        self.size = size;
        Ok(())
    }

    /// Takes instruction k out; the later ones move up.
    pub fn remove(&mut self, k: usize)
        requires { k < length self.old }
        ensures { self.new ≡ removed self.old k }
    {
        let words = words_in(&self.at(k));
        self.spans.remove(k);
        self.size -= words;
    }

    /// Replaces instruction k. After NoMemory the instructions are as before.
    pub fn put(&mut self, k: usize, inst: &View) -> Result<(), NoMemory>
        requires { k < length self.old }
        ensures ok { OnOk result (self.new ≡ slice_set self.old k (seen inst.now)) }
        ensures err { OnErr result (self.new ≡ self.old) }
    {
        let without = self.size - words_in(&self.at(k));
        let size = grown(without, inst)?;
        let span = append(&mut self.pool, inst)?;
        self.spans[k] = span;
        self.size = size;
        Ok(())
    }

    /// Replaces the instructions from `start` up to `end` by those of a list. After NoMemory they are as before.
    pub fn put_range(&mut self, start: usize, end: usize, list: &InstList) -> Result<(), NoMemory>
        requires { start ≤ end }
        ensures ok { OnOk result (self.new ≡ spliced self.old start end list.now) }
        ensures err { OnErr result (self.new ≡ self.old) }
    {
        let alloc = self.alloc();
        let more = append_list(alloc, &mut self.pool, list)?;
        let spans = splice(alloc, &self.spans, start, end, &more)?;
        let size = size_of(&self.pool, &spans)?;
        self.spans = spans;
        self.size = size;
        Ok(())
    }

    /// Puts an id in the place of one that instruction k uses.
    pub fn put_id(&mut self, k: usize, at: usize, id: u32)
        requires within { k < length self.old }
        requires used { (i : Instruction) → slice_get self.old k ≡ Some i → uses_at i at ≡ true }
        requires some { 0 < id }
        ensures { (i : Instruction) → slice_get self.old k ≡ Some i → self.new ≡ slice_set self.old k (with_word i at id) }
    {
        let span = self.spans[k];
        self.pool.put(span.start + at, id);
    }
}

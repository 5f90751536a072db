ghost use Rattle.std.specs.Prelude.{◌≡◌, ◌<◌, ◌++◌, ◌∷◌, [], Some, length, slice_get, OnOk, OnErr};

use crate::inst::Inst;
use crate::pool::Pool;
use crate::view::View;
use spv_base::NoMemory;
use std::alloc::Global;
use std::marker::Model;

/// Where an instruction of a list stands.
#[derive(Clone, Copy, Debug)]
pub struct Span {
    /// The place of its first word in the module that it was read from, in words.
    pub offset: u32,
    /// Its words are those of the pool from `start` up to `end`.
    pub start: usize,
    pub end: usize,
}

/// A list of instructions. It keeps their words one after the other.
#[derive(Debug, Drop)]
pub struct InstList {
    pool: Pool,
    spans: Vec<Span>,
}

impl Model for InstList {
    ghost use Rattle.std.specs.Prelude.{List};
    ghost use Rattle.spv_module.specs.Instruction.{Instruction};
    ghost use Rattle.spv_module.specs.List.{instructions_in, AreSpans};

    ghost Value = { List Instruction };

    ghost view = { λ list. instructions_in list.pool list.spans.items };

    ghost invariant = { λ list. AreSpans list.pool list.spans.items };
}

impl InstList {
    ghost use Rattle.std.specs.Prelude.{ℕ, ◌≤◌, ◌^◌, drop, slice_index, take};
    ghost use Rattle.spv_grammar.specs.Operands.{count_of};
    ghost use Rattle.spv_module.specs.Instruction.{Instruction, IsInstruction, instruction_rules, roles};
    ghost use Rattle.spv_module.specs.View.{seen};
    ghost use Rattle.spv_module.specs.Inst.{held};
    ghost use Rattle.spv_module.specs.List.{instructions_in, AreSpans};

    /// The list with no instruction.
    pub fn new(alloc: Global) -> InstList
        ensures { result ≡ [] }
    {
        InstList {
            pool: Pool::new(alloc),
            spans: Vec::new(alloc),
        }
    }

    /// Adds an instruction at the end. Where memory is wanting the list stays as it was.
    pub fn push(&mut self, inst: Inst) -> Result<(), NoMemory>
        ensures ok { OnOk result (self.new ≡ self.old ++ held inst ∷ []) }
        ensures err { OnErr result (self.new ≡ self.old) }
    {
        self.push_view(inst.view())
    }

    /// Adds a copy of an instruction at the end. Where memory is wanting the list stays as it was.
    pub fn push_view(&mut self, inst: View) -> Result<(), NoMemory>
        ensures ok { OnOk result (self.new ≡ self.old ++ seen inst.entry ∷ []) }
        ensures err { OnErr result (self.new ≡ self.old) }
    {
        self.spans.reserve(1)?;
        let start = self.pool.count();
        self.pool.append(inst)?;
        self.spans.push(Span {
            offset: inst.offset,
            start,
            end: self.pool.count(),
        })?;
        Ok(())
    }

    /// Adds the instruction of these words, at offset 0. They are to be one instruction of the profile. Where memory is wanting the list stays
    /// as it was.
    pub fn push_words(&mut self, alloc: Global, words: &[u32]) -> Result<(), NoMemory>
        requires some { 0 < length words.now }
        requires counted { count_of (slice_index words.now 0) ≡ length words.now }
        requires unbroken { instruction_rules (2 ^ 32) words.now ≡ [] }
        ensures ok { OnOk result (self.new ≡ self.old ++ (record { offset = 0; words = words.now }) ∷ []) }
        ensures err { OnErr result (self.new ≡ self.old) }
    {
        self.spans.reserve(1)?;
        let start = self.pool.count();
        self.pool.append_words(alloc, words)?;
        self.spans.push(Span {
            offset: 0,
            start,
            end: self.pool.count(),
        })?;
        Ok(())
    }

    /// Moves the first `count` instructions behind the others.
    pub fn rotate_left(&mut self, count: usize)
        requires { count ≤ length self.old }
        ensures { self.new ≡ drop count self.old ++ take count self.old }
    {
        self.spans.rotate_left(count);
    }

    /// The number of instructions.
    pub fn count(&self) -> usize
        ensures { result ≡ length self.now }
    {
        self.spans.len()
    }

    /// Says of each instruction what is said of one that is read alone: its words are those of an instruction of the profile. Does nothing.
    pub fn each_is_instruction(&self)
        ensures { (k : ℕ) (i : Instruction) → slice_get self.now k ≡ Some i → IsInstruction i.words (roles i) }
    {
        let _spans = self.spans.len();
    }

    /// The instruction at a place, counted from 0.
    pub fn at(&self, k: usize) -> View<'_>
        requires { k < length self.now }
        ensures { slice_get self.now k ≡ Some (seen result) }
    {
        let span = self.spans[k];
        self.pool.view(span.offset, span.start, span.end)
    }

    /// What the list is made of: its words, and where each instruction stands among them.
    pub fn into_parts(self) -> (Pool, Vec<Span>)
        ensures insts { instructions_in result.0 result.1.items ≡ self }
        ensures spans { AreSpans result.0 result.1.items }
    {
        (self.pool, self.spans)
    }

    /// The instructions that stand in words, none of which belongs to two of them.
    pub fn from_parts(pool: Pool, spans: Vec<Span>) -> InstList
        requires { AreSpans pool spans.items }
        ensures { result ≡ instructions_in pool spans.items }
    {
        InstList { pool, spans }
    }
}

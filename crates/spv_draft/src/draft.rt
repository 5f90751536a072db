ghost use Rattle.std.specs.Prelude.{◌≡◌, ◌+◌, ◌<◌, ◌≤◌, ◌^◌, ◌++◌, ◌∷◌, [], length, IfOk, OnOk, OnErr};
ghost use Rattle.spv_module.specs.View.{seen};

use crate::bound::{bound_of, is_bounded};
use crate::fresh::{IdFault, Index, MOST_ID, next_free, with_names};
use crate::functions::put_function;
use crate::lines::Lines;
use crate::replacing::replace_all;
use crate::uses::Uses;
use spv_base::{Header, Id, NoMemory};
use spv_module::{Flat, Inst, InstList, View};
use std::alloc::Global;
use std::marker::Model;

/// A module under change. It has fewer than 2^32 words, and a growth past that is want of memory.
#[derive(Debug, Drop)]
pub struct Draft {
    header: Header,
    lines: Lines,
    /// Room for the section of each instruction.
    sections: Vec<u8>,
    /// The ids that were handed out.
    given: Vec<u32>,
    /// The ids that are named, where they are known.
    index: Option<Index>,
}

impl Model for Draft {
    ghost use Rattle.std.specs.Prelude.{◌≤◌, ◌++◌, IfSome, length as count_of};
    ghost use Rattle.spv_draft.specs.Drafted.{Drafted};
    ghost use Rattle.spv_draft.specs.Fresh.{Knows};
    ghost use Rattle.spv_draft.specs.Named.{named_ids};

    ghost Value = { Drafted };

    ghost view = { λ draft. record { header = draft.header; insts = draft.lines; given = draft.given.items } };

    ghost invariant = { λ draft. (count_of draft.lines ≤ count_of draft.sections.items) × IfSome draft.index (λ index. Knows index (named_ids draft.lines ++ draft.given.items)) };
}

/// Adds an id at the end. Where memory is wanting the ids stay as they were.
fn push_id(ids: &mut Vec<u32>, id: u32) -> Result<(), NoMemory>
    ensures ok { OnOk result (ids.new.items ≡ ids.old.items ++ id ∷ []) }
    ensures err { OnErr result (ids.new.items ≡ ids.old.items) }
{
    ids.push(id)?;
    Ok(())
}

/// Sees to it that there are places for a number of sections. There are never fewer than before.
fn make_room(sections: &mut Vec<u8>, count: usize) -> Result<(), NoMemory>
    ensures room { OnOk result (count ≤ length sections.new.items) }
    ensures kept { length sections.old.items ≤ length sections.new.items }
{
    if sections.len() < count {
        sections.resize(count, 0)?;
    }
    Ok(())
}

impl Draft {
    ghost use Rattle.std.specs.Prelude.{[], Some, count_by, nat_lt, slice_get, slice_set, OnOk, OnErr};
    ghost use Rattle.std.specs.List.{insert as inserted, remove as removed};
    ghost use Rattle.spv_module.specs.Inst.{held};
    ghost use Rattle.spv_draft.specs.Drafted.{finished, taken_ids};
    ghost use Rattle.spv_placing.specs.Placing.{size_in};
    ghost use Rattle.spv_draft.specs.Fresh.{Gives, Knows};
    ghost use Rattle.spv_module.specs.Code.{is_function};
    ghost use Rattle.spv_draft.specs.Functions.{with_function as replaced_function};
    ghost use Rattle.spv_draft.specs.Named.{bound_of_ids, replaced};
    ghost use Rattle.spv_draft.specs.Tallies.{CountsUses};

    /// A draft of a module, of which no id was handed out.
    pub fn of(flat: Flat) -> Draft
        requires { size_in flat.insts < 2 ^ 32 }
        ensures { result ≡ record { header = flat.header; insts = flat.insts; given = [] } }
    {
        let (header, insts, sections) = flat.into_parts();
        let lines = Lines::of(insts);
        let given = Vec::new(lines.alloc());
        Draft {
            header,
            lines,
            sections,
            given,
            index: None,
        }
    }

    /// The number of instructions.
    pub fn count(&self) -> u32
        ensures { result ≡ length self.now.insts }
    {
        self.lines.count() as u32
    }

    /// The k-th instruction, counted from 0.
    pub fn at(&self, k: u32) -> View<'_>
        requires { k < length self.now.insts }
        ensures { slice_get self.now.insts k ≡ Some (seen result) }
    {
        self.lines.at(k as usize)
    }

    /// Puts an instruction at place k; the later ones follow it. After NoMemory the draft is as before.
    pub fn insert(&mut self, k: u32, inst: Inst) -> Result<(), NoMemory>
        requires { k ≤ length self.old.insts }
        ensures ok { OnOk result (self.new ≡ record self.old { insts = inserted self.old.insts k (held inst) }) }
        ensures err { OnErr result (self.new ≡ self.old) }
    {
        make_room(&mut self.sections, self.lines.count() + 1)?;
        self.lines.insert(k as usize, &inst.view())?;
        self.index = with_names(self.index.take(), &inst.view());
        Ok(())
    }

    /// Takes instruction k out; the later ones move up.
    pub fn remove(&mut self, k: u32)
        requires { k < length self.old.insts }
        ensures { self.new ≡ record self.old { insts = removed self.old.insts k } }
    {
        self.lines.remove(k as usize);
        self.index = None;
    }

    /// Replaces instruction k. After NoMemory the draft is as before.
    pub fn put(&mut self, k: u32, inst: Inst) -> Result<(), NoMemory>
        requires { k < length self.old.insts }
        ensures ok { OnOk result (self.new ≡ record self.old { insts = slice_set self.old.insts k (held inst) }) }
        ensures err { OnErr result (self.new ≡ self.old) }
    {
        self.lines.put(k as usize, &inst.view())?;
        self.index = None;
        Ok(())
    }

    /// Replaces the instructions of a function, counted from 0, by those of a list: from its OpFunction to before the next OpFunction or to the
    /// end. After NoMemory the draft is as before.
    pub fn put_function(&mut self, f: u32, list: &InstList) -> Result<(), NoMemory>
        requires { f < count_by is_function self.old.insts }
        ensures ok { OnOk result (self.new ≡ record self.old { insts = replaced_function f list.now self.old.insts }) }
        ensures err { OnErr result (self.new ≡ self.old) }
    {
        let most = self.lines.count().checked_add(list.count());
        make_room(&mut self.sections, most.ok_or(NoMemory)?)?;
        put_function(&mut self.lines, f, list)?;
        self.index = None;
        Ok(())
    }

    /// Puts `to` for each use of `from`, names and decorations aside.
    pub fn replace(&mut self, from: Id, to: Id)
        ensures { self.new ≡ record self.old { insts = replaced from to self.old.insts } }
    {
        self.index = None;
        replace_all(&mut self.lines, from.number(), to.number());
    }

    /// How often each id is used, names and decorations aside.
    pub fn uses(&self, alloc: Global) -> Result<Uses, NoMemory>
        ensures { IfOk result (λ uses. CountsUses uses self.now.insts) }
    {
        Uses::of_lines(alloc, &self.lines)
    }

    /// The least id above 0 that no instruction names and that was not handed out before. It then counts as named. PastIds where each id
    /// from 1 to 4,194,302 is named.
    pub fn fresh(&mut self) -> Result<Id, IdFault>
        ensures { Gives self.old self.new result }
    {
        let mut index = self.known()?;
        index.next = next_free(&index.tally, index.next);
        let next = index.next;
        if next > MOST_ID {
            self.index = Some(index);
            return Err(IdFault::PastIds);
        }
        let Some(id) = Id::new(next) else {
            unreachable!();
        };
        push_id(&mut self.given, next)?;
        self.index = index.with(next);
        Ok(id)
    }

    /// The ids that are named: those that are known, or counted anew.
    fn known(&mut self) -> Result<Index, NoMemory>
        ensures ok { IfOk result (λ index. Knows index (taken_ids self.old)) }
        ensures same { self.new ≡ self.old }
    {
        match self.index.take() {
            Some(index) => Ok(index),
            None => Index::of(self.lines.alloc(), &self.lines, &self.given),
        }
    }

    /// Whether the draft may be finished: whether one more than the greatest id that its instructions name is below 2^32.
    pub fn is_bounded(&self) -> bool
        ensures { result ≡ nat_lt (bound_of_ids self.now.insts) (2 ^ 32) }
    {
        is_bounded(&self.lines)
    }

    /// The module, with the bound that is one more than the greatest id that its instructions name.
    pub fn finish(self) -> Flat
        requires { bound_of_ids self.insts < 2 ^ 32 }
        ensures same { result ≡ finished self }
        ensures small { size_in self.insts < 2 ^ 32 }
    {
        let header = Header {
            bound: bound_of(&self.lines),
            ..self.header
        };
        let mut sections = self.sections;
        sections.truncate(self.lines.count());
        Flat::from_parts(header, self.lines.into_list(), sections)
    }
}

ghost use Rattle.std.specs.Prelude.{◌≡◌, IfOk, OnOk, ◌<◌, [], length, map, Some, slice_get, slice_index_or};
ghost use Rattle.std.specs.BTreeSet.{contains};
ghost use Rattle.std.specs.List.{list_all, range_with_len};
ghost use Rattle.std.specs.Ordering.{nat_cmp};
ghost use Rattle.spv_module.specs.View.{seen};
ghost use Rattle.spv_calls.specs.Broken.{Decides};
ghost use Rattle.spv_calls.specs.Calls.{CallsItself, CallsFit, calls as calls_in, globals_at};
ghost use Rattle.spv_calls.specs.Interfaces.{InterfaceFits, IsInterface};
ghost use Rattle.spv_calls.specs.Kept.{IsFresh, ListsNamed, row_passes};

use crate::body::Body;
use crate::globals::{Globals, is_function};
use crate::interface::{interface, listed, lists_all};
use crate::order::successors_first;
use crate::search::Search;
use crate::settling::settle;
use graph::{Graph, is_marked, reach_all};
use spv_base::Words;
use spv_ids::word;
use spv_module::{InstList, NoMemory, View};
use spv_opcodes::op;
use spv_typing::Kinds;
use std::alloc::Global;
use std::collections::BTreeSet;
use std::marker::Model;

/// Which functions of a module call which, and which global variables they name.
#[derive(Debug, Drop)]
pub struct Calls<'a> {
    globals: Globals<'a>,
    /// For each instruction the places of the functions that it calls, if it is an OpFunction.
    calls: Graph,
    /// For each instruction the global variables that it names, if it is an OpFunction.
    named: Vec<Words>,
    /// Functions that do not reach themselves.
    settled: Vec<bool>,
}

impl<'a> Model for Calls<'a> {
    ghost use Rattle.std.specs.Prelude.{List};
    ghost use Rattle.spv_module.specs.Instruction.{Instruction};
    ghost use Rattle.spv_calls.specs.Kept.{AreKept};

    ghost Value = { List Instruction };

    ghost view = { λ calls. calls.globals };

    ghost invariant = { λ calls. AreKept calls.globals calls.calls calls.named.items calls.settled.items };
}

/// The calls of each function, and the global variables that each names.
fn read_functions(alloc: Global, globals: &Globals) -> Result<(Graph, Vec<Words>), NoMemory>
    ensures { IfOk result (λ read. (read.0 ≡ calls_in globals.now) × (read.1.items ≡ map (globals_at globals.now) (range_with_len 0 (length globals.now)))) }
{
    let mut calls = Graph::new(alloc);
    let mut named = Vec::new(alloc);
    'instructions: for k in 0..globals.insts().count() {
        let Body {
            callees,
            globals: ids,
        } = Body::at(alloc, globals, k)?;
        calls.push(callees)?;
        named.push(ids)?;
    }
    Ok((calls, named))
}

/// The ids of a place; none past the last.
fn ids_at(named: &[Words], place: usize) -> &[u32]
    ensures { result.now ≡ slice_index_or named.now place [] }
{
    match named.get(place) {
        Some(ids) => ids.as_slice(),
        None => &[],
    }
}

impl<'a> Calls<'a> {
    /// The calls of a module.
    pub fn of(alloc: Global, kinds: &'a Kinds<'a>) -> Result<Calls<'a>, NoMemory>
        ensures { IfOk result (λ calls. calls ≡ kinds.now) }
    {
        let globals = Globals::of(kinds);
        let (calls, named) = read_functions(alloc, &globals)?;
        let order = successors_first(alloc, &calls)?;
        let settled = settle(alloc, &calls, &order)?;
        Ok(Calls {
            globals,
            calls,
            named,
            settled,
        })
    }

    /// The module's instructions.
    pub fn insts(&self) -> &'a InstList
        ensures { result.now ≡ self.now }
    {
        self.globals.insts()
    }

    /// Whether the function that begins with the k-th instruction, counted from 0, does not reach itself.
    fn is_straight(&self, alloc: Global, k: usize) -> Result<bool, NoMemory>
        requires { k < length self.now }
        ensures { IfOk result (λ straight. Decides straight (¬ CallsItself self.now k)) }
    {
        if is_marked(&self.settled, k) {
            return Ok(true);
        }
        let reached = reach_all(alloc, &self.calls, self.calls.row(k))?;
        Ok(!is_marked(&reached, k))
    }

    /// 601: whether the k-th instruction, counted from 0, is no OpFunction, or begins a function that does not reach
    /// itself by calls.
    pub fn calls_fit(&self, alloc: Global, k: usize, inst: &View) -> Result<bool, NoMemory>
        requires { slice_get self.now k ≡ Some (seen inst.now) }
        ensures { IfOk result (λ fits. Decides fits (CallsFit self.now k (seen inst.now))) }
    {
        if is_function(inst) {
            self.is_straight(alloc, k)
        } else {
            Ok(true)
        }
    }

    /// A search along the calls. Nothing is met yet.
    pub fn search(&self, alloc: Global) -> Result<Search, NoMemory>
        ensures { IfOk result (λ search. IsFresh (length self.now) search) }
    {
        Search::new(alloc, self.calls.count())
    }

    /// Whether the global variables that the function at a place names are all listed.
    fn lists_row(&self, listed: &BTreeSet<u32>, place: usize) -> bool
        ensures { result ≡ row_passes self.now (contains nat_cmp listed.now) place }
    {
        lists_all(listed, ids_at(&self.named, place))
    }

    /// Whether those of the functions at some places are.
    fn lists_rows(&self, listed: &BTreeSet<u32>, places: &[usize]) -> bool
        ensures { result ≡ list_all (row_passes self.now (contains nat_cmp listed.now)) places.now }
    {
        places.iter().all(|place| self.lists_row(listed, *place))
    }

    /// Whether a function and those that it reaches name only global variables that are listed.
    fn lists_named(
        &self,
        search: &mut Search,
        listed: &BTreeSet<u32>,
        first: usize,
    ) -> Result<bool, NoMemory>
        requires { IsFresh (length self.now) search.old }
        ensures fresh { OnOk result (IsFresh (length self.now) search.new) }
        ensures lists { IfOk result (λ lists. Decides lists (ListsNamed self.now first (contains nat_cmp listed.now))) }
    {
        search.run(&self.calls, first)?;
        let lists = self.lists_rows(listed, search.reached());
        search.clear();
        Ok(lists)
    }

    /// Whether the ids are the interface of a function.
    fn is_interface(
        &self,
        alloc: Global,
        search: &mut Search,
        function: u32,
        ids: &[u32],
    ) -> Result<bool, NoMemory>
        requires { IsFresh (length self.now) search.old }
        ensures fresh { OnOk result (IsFresh (length self.now) search.new) }
        ensures is { IfOk result (λ is. Decides is (IsInterface self.now function ids.now)) }
    {
        let Some(listed) = listed(alloc, &self.globals, ids)? else {
            return Ok(false);
        };
        match self.globals.place(function) {
            Some(first) => self.lists_named(search, &listed, first),
            None => Ok(true),
        }
    }

    /// 602: whether an entry point lists the interface of its function. Every other instruction passes. The search is one
    /// of this module, in which nothing is met; and so it is again. Where memory is wanting it serves no more.
    pub fn interface_fits(
        &self,
        alloc: Global,
        search: &mut Search,
        inst: &View,
    ) -> Result<bool, NoMemory>
        requires { IsFresh (length self.now) search.old }
        ensures fresh { OnOk result (IsFresh (length self.now) search.new) }
        ensures fits { IfOk result (λ fits. Decides fits (InterfaceFits self.now (seen inst.now))) }
    {
        if inst.opcode() == op::ENTRY_POINT {
            self.is_interface(alloc, search, word(inst, 2), interface(inst))
        } else {
            Ok(true)
        }
    }
}

ghost use Rattle.std.specs.Prelude.{◌≡◌, Some, None};
ghost use Rattle.spv_blocks.specs.Blocks.{merge_of as merge_in};
ghost use Rattle.spv_blocks.specs.Seen.{seen_construct};

use crate::flow::Flow;
use spv_base::NoMemory;
use spv_blocks::{Construct, Table};
use std::alloc::Global;

/// How far the blocks before a label were looked at.
#[derive(Clone, Copy)]
pub struct Passed {
    /// How many of them, from the first on.
    count: usize,
    /// The last of these that was no back edge when it was looked at.
    left: Option<u32>,
}

/// A table of tops that is being filled. Each block gets its top at most once and then waits for its turn.
#[derive(Drop)]
pub struct Filling {
    tops: Table<u32>,
    waiting: Vec<u32>,
    passed: Table<Passed>,
}

/// The merge block of a construct.
fn merge_of(construct: Construct) -> u32
    ensures { merge_in (Some (seen_construct construct)) ≡ Some result }
{
    match construct {
        Construct::Selection(merge) | Construct::Switch(merge) | Construct::Loop(merge, _) => merge,
    }
}

impl Filling {
    ghost use Rattle.std.specs.Prelude.{◌≡◌, ◌<◌, ◌==◌, ◌++◌, ◌∷◌, [], ℕ, true, false, cond, length, Some, None, OnOk, IfOk, MatchOption};
    ghost use Rattle.spv_blocks.specs.Tables.{found};
    ghost use Rattle.spv_blocks.specs.Blocks.{is_label, merge_of};
    ghost use Rattle.spv_blocks.specs.Blocks.{construct};
    ghost use Rattle.spv_walk.specs.Tables.{is_back_by};
    ghost use Rattle.spv_entering.specs.Flow.{before};
    ghost use Rattle.spv_entering.specs.Filling.{top_of, passed_of, passed_none, is_second as is_second_in, IsPassed, HasTwo, FindsLone, IsGoing, Puts, Begins, Looks, Goes, Passes, Turns, AlongTo};

    /// The table with no tops.
    pub fn over(alloc: Global, flow: &Flow) -> Result<Filling, NoMemory>
        ensures tops { IfOk result (λ filling. (b : ℕ) → top_of filling b ≡ None) }
        ensures waiting { IfOk result (λ filling. filling.waiting.items ≡ []) }
        ensures passed { IfOk result (λ filling. (t : ℕ) → passed_of filling t ≡ passed_none) }
    {
        Ok(Filling {
            tops: Table::beside(alloc, flow.labels())?,
            waiting: Vec::new(alloc),
            passed: Table::beside(alloc, flow.labels())?,
        })
    }

    /// The loop at whose top a block stands, as far as is known.
    fn top(&self, label: u32) -> Option<u32>
        ensures { result ≡ top_of self.now label }
    {
        self.tops.get(label)
    }

    /// How far the blocks before a label were looked at.
    fn passed(&self, t: u32) -> Passed
        ensures { result ≡ passed_of self.now t }
    {
        match self.passed.get(t) {
            Some(passed) => passed,
            None => Passed {
                count: 0,
                left: None,
            },
        }
    }

    /// Keeps how far the blocks before a label were looked at.
    fn keep(&mut self, t: u32, passed: Passed) -> Result<(), NoMemory>
        ensures tops { self.new.tops ≡ self.old.tops }
        ensures waiting { self.new.waiting ≡ self.old.waiting }
        ensures passed { OnOk result ((p : ℕ) → passed_of self.new p ≡ cond (t == p) passed (passed_of self.old p)) }
    {
        self.passed.put(t, passed)
    }

    /// Puts a block at the top of a loop, unless it stands at one.
    fn put(&mut self, h: u32, t: u32) -> Result<(), NoMemory>
        ensures { OnOk result (Puts self.old self.new h t) }
    {
        if self.tops.get(t).is_none() {
            self.tops.put(t, h)?;
            self.waiting.push(t)?;
        }
        Ok(())
    }

    /// The next block whose turn it is.
    pub fn next(&mut self) -> Option<u32>
        ensures tops { self.new.tops ≡ self.old.tops }
        ensures passed { self.new.passed ≡ self.old.passed }
        ensures waiting { MatchOption result (self.old.waiting.items ≡ []) (λ b. self.old.waiting.items ≡ self.new.waiting.items ++ b ∷ []) }
    {
        self.waiting.pop()
    }

    /// The table.
    pub fn into_tops(self) -> Table<u32>
        ensures { result ≡ self.tops }
    {
        let Filling {
            tops,
            waiting: _,
            passed: _,
        } = self;
        tops
    }

    /// Whether a branch from q to t is a back edge of the loop t, as far as is known.
    fn is_back(&self, flow: &Flow, t: u32, q: u32) -> bool
        ensures { result ≡ is_back_by flow.now.code (top_of self.now) t q }
    {
        flow.is_back(&self.tops, t, q)
    }

    /// Whether q and the block that was left are two, and neither is a back edge.
    fn is_second(&self, flow: &Flow, t: u32, left: Option<u32>, q: u32) -> bool
        ensures { result ≡ is_second_in flow.now.code (top_of self.now) t left q }
    {
        match left {
            Some(p) => p != q && !self.is_back(flow, t, p) && !self.is_back(flow, t, q),
            None => false,
        }
    }

    /// Looks at the blocks before a label, from where that was left off, until two are no back edges.
    fn advance(&self, flow: &Flow, t: u32, passed: Passed) -> Passed
        requires { IsPassed flow.now (top_of self.now) t passed }
        ensures passed { IsPassed flow.now (top_of self.now) t result }
        ensures two { result.count < length (before flow.now t) → HasTwo flow.now (top_of self.now) t }
    {
        let blocks = flow.before(t);
        let Passed {
            mut count,
            mut left,
        } = passed;
        'each: while count < blocks.len() {
            let q = blocks[count];
            if self.is_second(flow, t, left, q) {
                return Passed { count, left };
            }
            if !self.is_back(flow, t, q) {
                left = Some(q);
            }
            count += 1;
        }
        Passed { count, left }
    }

    /// The one block before a label that is no back edge, once all of them were looked at or two were found.
    fn lone_of(&self, flow: &Flow, t: u32, passed: Passed) -> Option<u32>
        requires label { is_label flow.now.code t ≡ true }
        requires passed { IsPassed flow.now (top_of self.now) t passed }
        requires two { passed.count < length (before flow.now t) → HasTwo flow.now (top_of self.now) t }
        ensures { FindsLone flow.now.code (top_of self.now) t result }
    {
        if passed.count < flow.before(t).len() {
            return None;
        }
        match passed.left {
            Some(p) if !self.is_back(flow, t, p) => Some(p),
            _ => None,
        }
    }

    /// The one block that branches to a label, back edges aside.
    fn lone(&mut self, flow: &Flow, t: u32) -> Result<Option<u32>, NoMemory>
        requires label { is_label flow.now.code t ≡ true }
        requires going { IsGoing flow.now self.old }
        ensures tops { self.new.tops ≡ self.old.tops }
        ensures waiting { self.new.waiting ≡ self.old.waiting }
        ensures going { OnOk result (IsGoing flow.now self.new) }
        ensures lone { IfOk result (λ lone. FindsLone flow.now.code (top_of self.old) t lone) }
    {
        let passed = self.advance(flow, t, self.passed(t));
        let lone = self.lone_of(flow, t, passed);
        self.keep(t, passed)?;
        Ok(lone)
    }

    /// The loop in whose continue part p goes along to a label.
    fn loop_along(&self, flow: &Flow, t: u32, p: u32) -> Option<u32>
        ensures { AlongTo flow.now.code (top_of self.now) t p result }
    {
        match self.top(p) {
            Some(h) if h != t && flow.labels().construct(p).is_none() => Some(h),
            _ => None,
        }
    }

    /// Looks at a target: it gets a top if a block goes along to it.
    fn look(&mut self, flow: &Flow, t: u32) -> Result<(), NoMemory>
        requires { IsGoing flow.now self.old }
        ensures { OnOk result (Looks flow.now self.old self.new t) }
    {
        if !flow.labels().is_free(t) || self.top(t).is_some() {
            return Ok(());
        }
        let Some(p) = self.lone(flow, t)? else {
            return Ok(());
        };
        let Some(h) = self.loop_along(flow, t, p) else {
            return Ok(());
        };
        self.put(h, t)
    }

    /// Looks at the targets of a block.
    fn along(&mut self, alloc: Global, flow: &Flow, b: u32) -> Result<(), NoMemory>
        requires { IsGoing flow.now self.old }
        ensures { OnOk result (Goes flow.now self.old self.new b) }
    {
        let targets = flow.targets(alloc, b)?;
        'targets: for t in &targets {
            self.look(flow, *t)?;
        }
        Ok(())
    }

    /// Goes past a construct at a top to its merge block.
    fn past(&mut self, flow: &Flow, b: u32, m: u32) -> Result<(), NoMemory>
        requires going { IsGoing flow.now self.old }
        requires merge { merge_of (construct flow.now.code b) ≡ Some m }
        ensures { OnOk result (Passes flow.now self.old self.new b m) }
    {
        if flow.labels().stops(b) || !flow.labels().is_role(b, m) {
            return Ok(());
        }
        match self.top(b) {
            Some(h) => self.put(h, m),
            None => Ok(()),
        }
    }

    /// The turn of a block that has a top.
    pub fn turn(&mut self, alloc: Global, flow: &Flow, b: u32) -> Result<(), NoMemory>
        requires { IsGoing flow.now self.old }
        ensures { OnOk result (Turns flow.now self.old self.new b) }
    {
        match flow.labels().construct(b) {
            Some(construct) => self.past(flow, b, merge_of(construct)),
            None => self.along(alloc, flow, b),
        }
    }

    /// Puts the continue target of a header at the top of its loop.
    pub fn begin(&mut self, flow: &Flow, h: u32) -> Result<(), NoMemory>
        requires { IsGoing flow.now self.old }
        ensures { OnOk result (Begins flow.now self.old self.new h) }
    {
        let labels = flow.labels();
        match labels.construct(h) {
            Some(Construct::Loop(_, next)) if labels.is_role(h, next) => self.put(h, next),
            _ => Ok(()),
        }
    }
}

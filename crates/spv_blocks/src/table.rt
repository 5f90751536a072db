// Values by labels.

use crate::block::Block;
use crate::function::Function;
use crate::labels::Labels;
use spv_base::NoMemory;
use std::alloc::Global;
use std::collections::BTreeMap;

/// A value for each of some labels. Labels of a window, which follow each other, are found in one step, and the others in a
/// map.
#[derive(Debug, Drop)]
pub struct Table<T = usize> {
    /// The first label of the window.
    first: u32,
    /// The values of the labels of the window.
    cells: Vec<Option<T>>,
    /// The values of the other labels.
    others: BTreeMap<u32, T>,
}

/// The labels of some blocks, from the least to the greatest, and how many of them a window may have: no more than in
/// proportion to the blocks.
#[derive(Clone, Copy)]
struct Span {
    least: u32,
    greatest: u32,
    most: usize,
}

impl Span {
    /// Of no block.
    fn new() -> Span {
        Span {
            least: u32::MAX,
            greatest: 0,
            most: 0,
        }
    }

    /// Adds a block.
    fn add(&mut self, block: &Block) {
        self.least = self.least.min(block.label);
        self.greatest = self.greatest.max(block.label);
        self.most = self.most.saturating_add(block.body.len()).saturating_add(8);
    }

    /// How many labels the window has.
    fn count(&self) -> usize {
        let width = (self.greatest as usize)
            .saturating_sub(self.least as usize)
            .saturating_add(1);
        width.min(self.most)
    }
}

/// The span of the blocks of a function.
fn span_of(function: &Function) -> Span {
    let mut span = Span::new();
    'each: for block in function.blocks() {
        span.add(block);
    }
    span
}

/// The span of the first block with each label.
fn span_of_labels(labels: &Labels) -> Span {
    let mut span = Span::new();
    'each: for k in 0..labels.count() {
        if let Some(label) = labels.label(k)
            && let Some(block) = labels.block(label)
        {
            span.add(block);
        }
    }
    span
}

impl<T: Copy> Table<T> {
    ghost use Rattle.std.specs.Prelude.{◌≡◌, ℕ, cond, nat_eq, None, Some, IfOk, OnOk, OnErr};
    ghost use Rattle.spv_blocks.specs.Tables.{found, is_within};

    /// Of no labels, with a window for a span.
    #[tactic(auto, unfolding(crate::specs::Tables::found))]
    fn new(alloc: Global, span: Span) -> Result<Table<T>, NoMemory>
        ensures { IfOk result (λ table. (l : ℕ) → found table l ≡ None) }
    {
        Ok(Table {
            first: span.least,
            cells: vec![in alloc; None; span.count()]?,
            others: BTreeMap::new(alloc),
        })
    }

    /// Of no labels, with a window for a function.
    pub(crate) fn over(alloc: Global, function: &Function) -> Result<Table<T>, NoMemory>
        ensures { IfOk result (λ table. (l : ℕ) → found table l ≡ None) }
    {
        Table::new(alloc, span_of(function))
    }

    /// Of no labels, with a window for the labels of a function.
    pub fn beside(alloc: Global, labels: &Labels) -> Result<Table<T>, NoMemory>
        ensures { IfOk result (λ table. (l : ℕ) → found table l ≡ None) }
    {
        Table::new(alloc, span_of_labels(labels))
    }

    /// Whether a label is in the window.
    fn is_within(&self, label: u32) -> bool
        ensures { result ≡ is_within self.now label }
    {
        self.first <= label && ((label - self.first) as usize) < self.cells.len()
    }

    /// The value of a label.
    #[tactic(auto, unfolding(crate::specs::Tables::found))]
    pub fn get(&self, label: u32) -> Option<T>
        ensures { result ≡ found self.now label }
    {
        if self.is_within(label) {
            self.cells[(label - self.first) as usize]
        } else {
            self.others.get(&label).copied()
        }
    }

    /// Gives a label a value. Where memory is wanting the table stays as it was.
    #[tactic(auto, unfolding(crate::specs::Tables::found))]
    pub fn put(&mut self, label: u32, value: T) -> Result<(), NoMemory>
        ensures ok { OnOk result ((l : ℕ) → found self.new l ≡ cond (nat_eq label l) (Some value) (found self.old l)) }
        ensures err { OnErr result ((l : ℕ) → found self.new l ≡ found self.old l) }
    {
        if self.is_within(label) {
            self.cells[(label - self.first) as usize] = Some(value);
        } else {
            self.others.insert(label, value).map_err(|_| NoMemory)?;
        }
        Ok(())
    }
}

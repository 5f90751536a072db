ghost use Rattle.std.specs.Prelude.{◌≡◌, ◌<◌, ◌+◌, ◌^◌, OnOk, IfOk, map};
ghost use Rattle.spv_blocks.specs.Places.{HasPlaces, KeepsPlace};

use crate::block::{Block, Construct};
use crate::counting::{count_of, counts_of};
use crate::function::Function;
use crate::table::Table;
use spv_base::NoMemory;
use std::alloc::Global;
use std::marker::Model;

/// The labels of a function: where they stand, and how often merge instructions name them. It borrows the function.
#[derive(Debug, Drop)]
pub struct Labels<'a> {
    function: &'a Function,
    /// The number of the first block with a label, by the label.
    places: Table,
    /// How often merge instructions name a label, up to two.
    counts: Table,
}

impl<'a> Model for Labels<'a> {
    ghost use Rattle.spv_blocks.specs.Blocks.{Code};
    ghost use Rattle.spv_blocks.specs.Places.{HasPlaces, HasNames};

    ghost Value = { Code };

    ghost view = { λ labels. labels.function.now };

    ghost invariant = { λ labels. HasPlaces labels.places labels.function.now × HasNames labels.counts labels.function.now };
}

/// Adds the place of a label, unless it is there.
fn add_place(places: &mut Table, k: usize, label: u32) -> Result<(), NoMemory>
    requires { k + 1 < 2 ^ 64 }
    ensures { OnOk result (KeepsPlace places.old places.new k label) }
{
    let None = places.get(label) else {
        return Ok(());
    };
    places.put(label, k)?;
    Ok(())
}

/// The number of the first block with a label, by the label.
fn places_of(alloc: Global, function: &Function) -> Result<Table, NoMemory>
    ensures { IfOk result (λ places. HasPlaces places function.now) }
{
    let mut places = Table::over(alloc, function)?;
    'each: for k in 0..function.count() {
        add_place(&mut places, k, function.block(k).label)?;
    }
    Ok(places)
}

impl<'a> Labels<'a> {
    ghost use Rattle.std.specs.Prelude.{◌<◌, Some, length, slice_get};
    ghost use Rattle.std.specs.Option.{option_map};
    ghost use Rattle.spv_blocks.specs.Blocks.{is_label as label_in, is_first as first_in, is_role as role_in, block as block_in, construct as construct_in, stops as stops_in};
    ghost use Rattle.spv_blocks.specs.Places.{place as place_in, named as named_in, is_free as free_in, number_of, row_of};
    ghost use Rattle.spv_blocks.specs.Seen.{seen_block, seen_construct};

    /// The labels of a function.
    pub fn of(alloc: Global, function: &'a Function) -> Result<Labels<'a>, NoMemory>
        ensures { IfOk result (λ labels. labels ≡ function.now) }
    {
        let places = places_of(alloc, function)?;
        let counts = counts_of(alloc, function)?;
        Ok(Labels {
            function,
            places,
            counts,
        })
    }

    /// The number of blocks.
    pub fn count(&self) -> usize
        ensures { result ≡ length self.now }
    {
        self.function.count()
    }

    /// The label of the first block.
    pub fn first(&self) -> Option<u32>
        ensures { result ≡ option_map (λ block. block.label) (slice_get self.now 0) }
    {
        self.label(0)
    }

    /// The label of the i-th block, counted from 0; none past the last block.
    pub fn label(&self, i: usize) -> Option<u32>
        ensures { result ≡ option_map (λ block. block.label) (slice_get self.now i) }
    {
        Some(self.function.blocks().get(i)?.label)
    }

    /// The number of the first block with a label, counted from 0.
    pub fn place(&self, label: u32) -> Option<usize>
        ensures { result ≡ place_in self.now label }
    {
        self.places.get(label)
    }

    /// The number of the first block with a label, counted from 0. A label that no block has gets a number past all
    /// blocks, another for each label.
    pub fn number(&self, label: u32) -> usize
        ensures { result ≡ number_of self.now label }
    {
        match self.place(label) {
            Some(place) => place,
            None => self.function.past(label),
        }
    }

    /// How often merge instructions name a label, up to two.
    pub fn named(&self, label: u32) -> u8
        ensures { result ≡ named_in self.now label }
    {
        match count_of(&self.counts, label) {
            0 => 0,
            1 => 1,
            _ => 2,
        }
    }

    /// Whether it is the label of a block.
    pub fn is_label(&self, label: u32) -> bool
        ensures { result ≡ label_in self.now label }
    {
        self.place(label).is_some()
    }

    /// Whether it is the label of the first block.
    pub fn is_first(&self, label: u32) -> bool
        ensures { result ≡ first_in self.now label }
    {
        match self.function.blocks().first() {
            Some(block) => block.label == label,
            None => false,
        }
    }

    /// Whether a merge block or continue target of the header may be walked to.
    pub fn is_role(&self, header: u32, label: u32) -> bool
        ensures { result ≡ role_in self.now header label }
    {
        self.is_label(label) && !self.is_first(label) && label != header && self.named(label) == 1
    }

    /// Whether a block may go on to the label.
    pub fn is_free(&self, label: u32) -> bool
        ensures { result ≡ free_in self.now label }
    {
        self.is_label(label) && !self.is_first(label) && self.named(label) == 0
    }

    /// The first block with a label.
    pub fn block(&self, label: u32) -> Option<&'a Block>
        ensures { option_map (λ block. seen_block block.now) result ≡ block_in self.now label }
    {
        let place = self.place(label)?;
        Some(self.function.block(place))
    }

    /// What the first block with a label opens before its terminator.
    pub fn construct(&self, label: u32) -> Option<Construct>
        ensures { option_map seen_construct result ≡ construct_in self.now label }
    {
        self.block(label)?.construct()
    }

    /// Whether the label is that of a header that is its own continue target.
    pub fn stops(&self, label: u32) -> bool
        ensures { result ≡ stops_in self.now label }
    {
        match self.construct(label) {
            Some(Construct::Loop(_, next)) => next == label,
            _ => false,
        }
    }

    /// The numbers of the blocks that the terminator of the i-th block leads to, counted from 0, in the order in which it
    /// names them, with repetitions; a number past all blocks for each that is no label of the function.
    pub fn row(&self, alloc: Global, i: usize) -> Result<Vec<usize>, NoMemory>
        requires { i < length self.now }
        ensures { IfOk result (λ row. Some row.items ≡ option_map (row_of self.now) (slice_get self.now i)) }
    {
        let block = self.function.block(i);
        let mut row = Vec::new(alloc);
        'targets: for k in 0..block.target_count() {
            row.push(self.number(block.target(k)))?;
        }
        Ok(row)
    }

    /// The numbers of labels, in order; a number past all blocks for each that is no label of the function.
    pub fn numbers(&self, alloc: Global, labels: &[u32]) -> Result<Vec<usize>, NoMemory>
        ensures { IfOk result (λ numbers. numbers.items ≡ map (number_of self.now) labels.now) }
    {
        let mut numbers = Vec::new(alloc);
        'labels: for label in labels {
            numbers.push(self.number(*label))?;
        }
        Ok(numbers)
    }
}

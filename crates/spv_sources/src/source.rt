ghost use Rattle.std.specs.Prelude.{◌≡◌, ◌∷◌, true, false, IfOk, OnOk};
ghost use Rattle.spv_blocks.specs.Blocks.{branches as branches_in, is_label as label_in};
ghost use Rattle.spv_blocks.specs.Cutting.{blocks_of};
ghost use Rattle.spv_bodies.specs.Bodies.{Body as Plain};
ghost use Rattle.spv_normal.specs.Lines.{before_labels, without_marks};
ghost use Rattle.spv_normal.specs.Order.{first_label, is_front as front_in};
ghost use Rattle.spv_spelling.specs.Spelling.{AreStaying};
ghost use Rattle.spv_spelling.specs.Text.{Take, copies as copies_in, front_of as front_in_text, phis, text as text_in};
ghost use Rattle.spv_spelling.specs.Whole.{IsAdmitted};
ghost use Rattle.spv_tree.specs.Tree.{front_of, items_then, words_of};
ghost use Rattle.spv_sources.specs.Close.{IsText};
ghost use Rattle.spv_sources.specs.Source.{stays_of as stays_in};
ghost use Rattle.spv_sources.specs.Values.{IsBegin};

use crate::begins::{Begin, begins_of};
use crate::close::Text;
use crate::heading::{Heading, first_mark, heading_of};
use crate::phis::{parameters_of, phis_from, push_copies};
use crate::reading::id_at;
use crate::staying::stays_of;
use crate::text::text_at;
use crate::unmarked::Unmarked;
use spv_base::{Id, NoMemory};
use spv_blocks::{Insts, Labels};
use spv_tree::{Front, Item};
use sqlite_items::Items;
use std::alloc::Global;
use std::collections::BTreeMap;
use std::marker::Model;

/// The instructions of a function that breaks no rule, to be read by the labels of its blocks. It borrows them.
#[derive(Drop)]
pub struct Source<'a> {
    insts: Unmarked<'a>,
    /// Where each block begins, by its label.
    begins: BTreeMap<u32, Begin>,
    /// The label that stays for a block which is joined with one before.
    stays: BTreeMap<u32, Id>,
}

impl<'a> Model for Source<'a> {
    ghost use Rattle.spv_sources.specs.Source.{Told};
    ghost use Rattle.spv_sources.specs.Told.{IsKept};

    ghost Value = { Told };

    ghost view = { λ source. record { insts = source.insts; stays = source.stays.entries } };

    ghost invariant = { λ source. IsKept source.insts source.begins source.stays };
}

impl<'a> Source<'a> {
    /// The source of a function that breaks no rule, whose labels these are.
    pub fn of(
        alloc: Global,
        insts: &'a Insts<'a>,
        labels: &Labels<'_>,
    ) -> Result<Source<'a>, NoMemory>
        requires labels { labels.now ≡ blocks_of (without_marks insts.now) }
        requires admitted { IsAdmitted (without_marks insts.now) }
        ensures { IfOk result (λ source. source.insts ≡ without_marks insts.now) }
    {
        let insts = Unmarked::of(alloc, insts)?;
        let begins = begins_of(alloc, &insts)?;
        let stays = stays_of(alloc, labels)?;
        Ok(Source {
            insts,
            begins,
            stays,
        })
    }

    /// Says that the function breaks no rule. Does nothing.
    pub fn is_admitted(&self)
        ensures { IsAdmitted self.now.insts }
    {
        let _insts = self.insts.count();
    }

    /// Says which labels stay. Does nothing.
    pub fn are_staying(&self)
        ensures { AreStaying self.now.insts (stays_in self.now) }
    {
        let _insts = self.insts.count();
    }

    /// What stands before the first block.
    pub fn heading(&self, alloc: Global) -> Result<Heading, NoMemory>
        ensures { IfOk result (λ heading. words_of (before_labels self.now.insts) ≡ heading.function.words ∷ words_of heading.parameters) }
    {
        heading_of(alloc, &self.insts)
    }

    /// The label of the first block.
    pub fn first(&self) -> Id
        ensures same { result ≡ first_label (blocks_of self.now.insts) }
        ensures is { label_in (blocks_of self.now.insts) result ≡ true }
    {
        id_at(&self.insts.at(first_mark(&self.insts)), 1)
    }

    /// Where a block begins.
    fn begin(&self, label: Id) -> &Begin
        requires { label_in (blocks_of self.now.insts) label ≡ true }
        ensures { IsBegin self.now.insts label result.now }
    {
        match self.begins.get(&label.number()) {
            Some(begin) => begin,
            None => unreachable!(),
        }
    }

    /// A block behind its OpPhi.
    pub fn text(&self, alloc: Global, label: Id) -> Result<Text, NoMemory>
        requires { label_in (blocks_of self.now.insts) label ≡ true }
        ensures { IfOk result (λ text. IsText self.now.insts label text) }
    {
        let start = self.begin(label).start;
        text_at(alloc, &self.insts, start)
    }

    /// The front of a block: its label, and its OpPhi as parameters, which name the labels that stay.
    pub fn front(&self, alloc: Global, label: Id) -> Result<Front, NoMemory>
        requires { label_in (blocks_of self.now.insts) label ≡ true }
        ensures { IfOk result (λ front. front_of front ≡ front_in_text self.now.insts (stays_in self.now) label) }
    {
        let start = self.begin(label).start;
        let phis = phis_from(alloc, &self.insts, start)?;
        Ok(Front {
            label,
            parameters: parameters_of(alloc, &self.stays, &phis)?,
        })
    }

    /// The values that the OpPhi of a block take from another, which branches to it.
    pub fn values(&self, alloc: Global, block: Id, target: Id) -> Result<Items<Id>, NoMemory>
        requires label { label_in (blocks_of self.now.insts) target ≡ true }
        requires branch { branches_in (blocks_of self.now.insts) block target ≡ true }
        ensures { IfOk result (λ values. Take block (phis (text_in self.now.insts target)) values) }
    {
        self.is_admitted();
        match self.begin(target).values.get(&block.number()) {
            Some(values) => Ok(Items::from_slice(alloc, values.as_slice())?),
            None => Ok(Items::new(alloc)),
        }
    }

    /// Adds an OpCopyObject for each OpPhi of a block that is no merge block, no continue target and no header of a loop.
    pub fn copies(&self, alloc: Global, label: Id, items: &mut Vec<Item>) -> Result<(), NoMemory>
        requires label { label_in (blocks_of self.now.insts) label ≡ true }
        requires plain { front_in (blocks_of self.now.insts) label ≡ false }
        ensures { OnOk result ((rest : Plain) → items_then items.new.items rest ≡ items_then items.old.items (copies_in (phis (text_in self.now.insts label)) rest)) }
    {
        let start = self.begin(label).start;
        let phis = phis_from(alloc, &self.insts, start)?;
        push_copies(alloc, &phis, items)
    }
}

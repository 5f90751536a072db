ghost use Rattle.std.specs.Prelude.{◌≡◌, ◌<◌, ◌+◌, ◌^◌, OnOk, IfOk};
ghost use Rattle.spv_module.specs.View.{seen};
ghost use Rattle.spv_ids.specs.Places.{HasPlaces, AddsPlace};

use crate::table::Numbers;
use crate::words::{word, words_from};
use spv_module::{Flat, InstList, NoMemory, View};
use std::alloc::Global;
use std::marker::Model;

/// Where each id of a module is first defined.
#[derive(Debug, Drop)]
pub struct Definitions<'a> {
    insts: &'a InstList,
    /// The number of the first instruction that defines an id, by the id.
    places: Numbers,
}

impl<'a> Model for Definitions<'a> {
    ghost use Rattle.std.specs.Prelude.{List};
    ghost use Rattle.spv_module.specs.Instruction.{Instruction};
    ghost use Rattle.spv_ids.specs.Places.{HasPlaces};

    ghost Value = { List Instruction };

    ghost view = { λ definitions. definitions.insts.now };

    ghost invariant = { λ definitions. HasPlaces definitions.places definitions.insts.now };
}

/// Adds what the k-th instruction defines, unless it is there.
fn add_place(places: &mut Numbers, k: u32, inst: &View) -> Result<(), NoMemory>
    requires { k + 1 < 2 ^ 32 }
    ensures { OnOk result (AddsPlace places.old places.new k (seen inst.now)) }
{
    let Some(id) = inst.result() else {
        return Ok(());
    };
    places.keep(id.number(), k)
}

/// The number of the first instruction that defines an id, by the id.
fn places_of(alloc: Global, flat: &Flat) -> Result<Numbers, NoMemory>
    ensures { IfOk result (λ places. HasPlaces places flat.now.insts) }
{
    let mut places = Numbers::new(alloc);
    'instructions: for k in 0..flat.count() {
        add_place(&mut places, k, &flat.at(k))?;
    }
    Ok(places)
}

impl<'a> Definitions<'a> {
    ghost use Rattle.std.specs.Option.{option_map};
    ghost use Rattle.spv_ids.specs.Ids.{place_of, definition, kind as kind_in, word_of, words_of};

    /// The definitions of a module.
    pub fn of(alloc: Global, flat: &'a Flat) -> Result<Definitions<'a>, NoMemory>
        ensures { IfOk result (λ definitions. definitions ≡ flat.now.insts) }
    {
        let places = places_of(alloc, flat)?;
        Ok(Definitions {
            insts: flat.insts(),
            places,
        })
    }

    /// The module's instructions.
    pub fn insts(&self) -> &'a InstList
        ensures { result.now ≡ self.now }
    {
        self.insts
    }

    /// The number of the first instruction that defines an id, counted from 0.
    pub fn place(&self, id: u32) -> Option<u32>
        ensures { result ≡ place_of self.now id }
    {
        self.places.get(id)
    }

    /// The first instruction that defines an id.
    pub fn find(&self, id: u32) -> Option<View<'a>>
        ensures { option_map seen result ≡ definition self.now id }
    {
        let place = self.place(id)?;
        Some(self.insts.at(place as usize))
    }

    /// The opcode of the first instruction that defines an id; 0, which is no instruction's, where none does.
    pub fn kind(&self, id: u32) -> u16
        ensures { result ≡ kind_in self.now id }
    {
        match self.find(id) {
            Some(inst) => inst.opcode(),
            None => 0,
        }
    }

    /// The k-th word, counted from 0, of the first instruction that defines an id; 0 past its end, and where
    /// none does.
    pub fn word(&self, id: u32, k: usize) -> u32
        ensures { result ≡ word_of self.now id k }
    {
        match self.find(id) {
            Some(inst) => word(&inst, k),
            None => 0,
        }
    }

    /// The words from the k-th on of the first instruction that defines an id; none past its end, and where
    /// none does.
    pub fn words(&self, id: u32, k: usize) -> &'a [u32]
        ensures { result.now ≡ words_of self.now id k }
    {
        match self.find(id) {
            Some(inst) => words_from(&inst, k),
            None => &[],
        }
    }
}

ghost use Rattle.std.specs.Prelude.{◌≡◌, ◌<◌, ◌+◌, ◌-◌, ◌^◌, ◌∷◌, [], count_by, length, IfOk};
ghost use Rattle.spv_module.specs.Code.{is_function as function_begins};
ghost use Rattle.spv_module.specs.View.{seen};
ghost use Rattle.spv_blocks.specs.Cutting.{is_label_mark};
ghost use Rattle.spv_availability.specs.Kept.{AreStandings};
ghost use Rattle.spv_availability.specs.Places.{last_label};

use spv_ids::word;
use spv_module::{Flat, InstList, NoMemory, View};
use spv_opcodes::op;
use std::alloc::Global;
use std::marker::Model;

/// Where an instruction stands.
#[derive(Clone, Copy, Debug)]
pub(crate) struct Standing {
    /// The number of its function, counted from 1; 0 outside functions.
    pub function: u32,
    /// The label of its block; 0 before the first block of the module.
    pub block: u32,
}

/// Where an id is used.
#[derive(Clone, Copy, Debug)]
pub(crate) struct Spot {
    /// The number of the function, counted from 1.
    pub function: u32,
    /// The label of the block.
    pub block: u32,
    /// How many instructions of the module stand before it.
    pub before: usize,
}

/// Where each instruction of a module stands: in which function, and in which block.
#[derive(Debug, Drop)]
pub struct Places<'a> {
    insts: &'a InstList,
    /// By the numbers of the instructions.
    standings: Vec<Standing>,
}

impl<'a> Model for Places<'a> {
    ghost use Rattle.std.specs.Prelude.{List, length};
    ghost use Rattle.spv_module.specs.Instruction.{Instruction};
    ghost use Rattle.spv_availability.specs.Kept.{AreStandings};

    ghost Value = { List Instruction };

    ghost view = { λ places. places.insts.now };

    ghost invariant = { λ places. AreStandings places.insts.now (length places.insts.now) places.standings.items };
}

/// Whether the instruction is OpFunction.
pub(crate) fn is_function(inst: &View) -> bool
    ensures { result ≡ function_begins (seen inst.now) }
{
    inst.opcode() == op::FUNCTION
}

/// Whether the instruction is OpLabel.
pub(crate) fn is_label(inst: &View) -> bool
    ensures { result ≡ is_label_mark (seen inst.now) }
{
    inst.opcode() == op::LABEL
}

/// The number of the function that an instruction stands in, behind so many functions.
fn function_behind(functions: u32, inst: &View) -> u32
    requires { functions < 2 ^ 32 - 1 }
    ensures { result ≡ functions + count_by function_begins (seen inst.now ∷ []) }
{
    if is_function(inst) {
        functions + 1
    } else {
        functions
    }
}

/// The label of the block that an instruction stands in, behind one of a block with a label.
fn block_behind(before: u32, inst: &View) -> u32
    ensures { result ≡ last_label before (seen inst.now ∷ []) }
{
    if is_label(inst) {
        word(inst, 1)
    } else {
        before
    }
}

/// Where each instruction of a module stands.
fn standings_of(alloc: Global, flat: &Flat) -> Result<Vec<Standing>, NoMemory>
    ensures { IfOk result (λ standings. AreStandings flat.now.insts (length flat.now.insts) standings.items) }
{
    let mut standings = Vec::new(alloc);
    let mut function = 0;
    let mut block = 0;
    'instructions: for k in 0..flat.count() {
        let inst = flat.at(k);
        function = function_behind(function, &inst);
        block = block_behind(block, &inst);
        standings.push(Standing { function, block })?;
    }
    Ok(standings)
}

impl<'a> Places<'a> {
    ghost use Rattle.spv_availability.specs.Kept.{standing};
    ghost use Rattle.spv_availability.specs.Places.{function_of};

    /// Where the instructions of a module stand. It takes time in proportion to the module.
    pub fn of(alloc: Global, flat: &'a Flat) -> Result<Places<'a>, NoMemory>
        ensures { IfOk result (λ places. places ≡ flat.now.insts) }
    {
        Ok(Places {
            insts: flat.insts(),
            standings: standings_of(alloc, flat)?,
        })
    }

    /// The number of the function that the k-th instruction stands in, counted from 1; 0 outside functions.
    pub fn function(&self, k: u32) -> u32
        requires { k < length self.now }
        ensures { result ≡ function_of self.now k }
    {
        self.at(k).function
    }

    /// The number of instructions.
    pub(crate) fn count(&self) -> usize
        ensures { result ≡ length self.now }
    {
        self.standings.len()
    }

    /// Where the k-th instruction stands, counted from 0.
    pub(crate) fn at(&self, k: u32) -> Standing
        requires { k < length self.now }
        ensures { result ≡ standing self.now k }
    {
        self.standings[k as usize]
    }
}

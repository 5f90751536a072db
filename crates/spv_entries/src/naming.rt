ghost use Rattle.std.specs.Prelude.{◌≡◌, ◌||◌, [], IfOk, OnOk};
ghost use Rattle.spv_module.specs.View.{seen};
ghost use Rattle.spv_entries.specs.Sizes.{sizes_all as sizes_all_in};
ghost use Rattle.spv_entries.specs.Naming.{HasNaming};

use crate::keys::add;
use crate::mode::{
    called_function, entry_function, id_function, literal_function, sizes_all, unfit_function,
};
use spv_module::{InstList, NoMemory, View};
use spv_typing::Kinds;
use std::alloc::Global;
use std::collections::BTreeSet;

/// The functions that modes of one kind name.
#[derive(Debug, Drop)]
pub struct Modes {
    /// Those that one names.
    once: BTreeSet<u32>,
    /// Those that two name.
    twice: BTreeSet<u32>,
}

/// The functions that instructions name.
#[derive(Debug, Drop)]
pub struct Naming {
    /// Those of entry points.
    entered: BTreeSet<u32>,
    /// Those that are called.
    called: BTreeSet<u32>,
    /// Those of LocalSize.
    literal: Modes,
    /// Those of LocalSizeId.
    by_ids: Modes,
    /// Those of either whose sizes do not fit.
    unfit: BTreeSet<u32>,
    /// Whether a constant is the size of all workgroups.
    sized: bool,
}

/// Whether a constant is the size of all workgroups, behind an instruction more.
fn is_sized_behind(sized: bool, kinds: &Kinds, inst: &View) -> bool
    ensures { result ≡ (sized || sizes_all_in kinds.now (seen inst.now)) }
{
    sized || sizes_all(kinds, inst)
}

impl Modes {
    ghost use Rattle.std.specs.Prelude.{ℕ, Option};
    ghost use Rattle.std.specs.BTreeSet.{contains};
    ghost use Rattle.std.specs.Ordering.{nat_cmp};
    ghost use Rattle.spv_module.specs.Instruction.{Instruction};
    ghost use Rattle.spv_entries.specs.Naming.{HasModes, AddsMode};

    fn new(alloc: Global) -> Modes
        ensures { (kind : Instruction → Option ℕ) → HasModes kind result [] }
    {
        Modes {
            once: BTreeSet::new(alloc),
            twice: BTreeSet::new(alloc),
        }
    }

    /// Adds a function that one more names, if there is one.
    fn add(&mut self, function: Option<u32>) -> Result<(), NoMemory>
        ensures { OnOk result (AddsMode self.old self.new function) }
    {
        let known = add(&mut self.once, function)?;
        if known {
            add(&mut self.twice, function)?;
        }
        Ok(())
    }

    /// Whether one names the function.
    pub fn has(&self, function: u32) -> bool
        ensures { result ≡ contains nat_cmp self.now.once function }
    {
        self.once.contains(&function)
    }

    /// Whether two name the function.
    pub fn has_two(&self, function: u32) -> bool
        ensures { result ≡ contains nat_cmp self.now.twice function }
    {
        self.twice.contains(&function)
    }
}

impl Naming {
    ghost use Rattle.std.specs.Prelude.{List, ◌++◌, ◌∷◌};
    ghost use Rattle.std.specs.Prelude.{ℕ};
    ghost use Rattle.spv_module.specs.Instruction.{Instruction};
    ghost use Rattle.spv_entries.specs.Sizes.{is_sized as sized_in, some_names, entry_function as entry_in};
    ghost use Rattle.spv_entries.specs.Functions.{called_function as called_in};

    fn new(alloc: Global) -> Naming
        ensures { (all : List Instruction) → HasNaming all result [] }
    {
        Naming {
            entered: BTreeSet::new(alloc),
            called: BTreeSet::new(alloc),
            literal: Modes::new(alloc),
            by_ids: Modes::new(alloc),
            unfit: BTreeSet::new(alloc),
            sized: false,
        }
    }

    /// Reads one instruction more.
    fn read(&mut self, kinds: &Kinds, inst: &View) -> Result<(), NoMemory>
        ensures { OnOk result ((before : List Instruction) → HasNaming kinds.now self.old before → HasNaming kinds.now self.new (before ++ seen inst.now ∷ [])) }
    {
        add(&mut self.entered, entry_function(inst))?;
        add(&mut self.called, called_function(inst))?;
        self.literal.add(literal_function(inst))?;
        self.by_ids.add(id_function(inst))?;
        add(&mut self.unfit, unfit_function(kinds, inst))?;
        self.sized = is_sized_behind(self.sized, kinds, inst);
        Ok(())
    }

    /// The functions that the instructions of a module name.
    pub fn of(alloc: Global, insts: &InstList, kinds: &Kinds) -> Result<Naming, NoMemory>
        ensures { IfOk result (λ naming. HasNaming kinds.now naming insts.now) }
    {
        let mut naming = Naming::new(alloc);
        'instructions: for k in 0..insts.count() {
            naming.read(kinds, &insts.at(k))?;
        }
        Ok(naming)
    }

    /// Whether the function has its workgroup size.
    pub fn is_sized(&self, function: u32) -> bool
        ensures { (insts : List Instruction) → HasNaming insts self.now insts → result ≡ sized_in insts function }
    {
        (self.literal.has(function) || self.by_ids.has(function) || self.sized)
            && !self.literal.has_two(function)
            && !self.by_ids.has_two(function)
            && !self.unfit.contains(&function)
    }

    /// Whether the function is that of an entry point.
    pub fn is_entered(&self, function: u32) -> bool
        ensures { (all insts : List Instruction) → HasNaming all self.now insts → result ≡ some_names entry_in insts function }
    {
        self.entered.contains(&function)
    }

    /// Whether the function is called.
    pub fn is_called(&self, function: u32) -> bool
        ensures { (all insts : List Instruction) → HasNaming all self.now insts → result ≡ some_names called_in insts function }
    {
        self.called.contains(&function)
    }
}

ghost use Rattle.std.specs.Prelude.{◌≡◌, ◌||◌, [], IfOk};
ghost use Rattle.spv_module.specs.Code.{is_function};
ghost use Rattle.spv_module.specs.View.{seen};
ghost use Rattle.spv_entries.specs.Kept.{AreClashing};
ghost use Rattle.spv_entries.specs.Bindings.{slot_of as slot_in_module, is_buffer as buffer, other_class as other};

use crate::keys::add;
use spv_decorations::Decorations;
use spv_ids::word;
use spv_module::{InstList, NoMemory, View};
use spv_opcodes::{decoration, op, storage_class};
use std::alloc::Global;
use std::collections::BTreeSet;

/// What is kept of the instructions that were read.
#[derive(Debug, Drop)]
pub struct Slots {
    /// Whether a function has begun.
    begun: bool,
    /// The set, the binding and the storage class of each variable that has them.
    taken: BTreeSet<(u32, u32, u32)>,
}

/// The descriptor set, the binding and the storage class of a variable. None where it has no set or no binding.
fn slot_of(decorations: &Decorations, inst: &View) -> Option<(u32, u32, u32)>
    ensures { result ≡ slot_in_module decorations.now (seen inst.now) }
{
    if inst.opcode() != op::VARIABLE {
        return None;
    }
    let id = word(inst, 2);
    let set = decorations.literal(id, decoration::DESCRIPTOR_SET)?;
    let binding = decorations.literal(id, decoration::BINDING)?;
    Some((set, binding, word(inst, 3)))
}

/// Whether an instruction is a Uniform or StorageBuffer variable.
fn is_buffer(inst: &View) -> bool
    ensures { result ≡ buffer (seen inst.now) }
{
    inst.opcode() == op::VARIABLE
        && matches!(
            word(inst, 3),
            storage_class::UNIFORM | storage_class::STORAGE_BUFFER
        )
}

/// The other one of the two storage classes.
fn other_class(class: u32) -> u32
    ensures { result ≡ other class }
{
    if class == storage_class::UNIFORM {
        storage_class::STORAGE_BUFFER
    } else {
        storage_class::UNIFORM
    }
}

/// Whether a function has begun behind an instruction.
fn has_begun(begun: bool, inst: &View) -> bool
    ensures { result ≡ (begun || is_function (seen inst.now)) }
{
    begun || inst.opcode() == op::FUNCTION
}

impl Slots {
    ghost use Rattle.std.specs.Prelude.{List};
    ghost use Rattle.spv_module.specs.Instruction.{Instruction};
    ghost use Rattle.spv_repeats.specs.Steps.{Follows};
    ghost use Rattle.spv_entries.specs.Bindings.{Slot, slot_fits, binding_fits};
    ghost use Rattle.spv_entries.specs.Slots.{HasSlots, clashes};

    fn new(alloc: Global) -> Slots
        ensures { (insts : List Instruction) → HasSlots insts result [] }
    {
        Slots {
            begun: false,
            taken: BTreeSet::new(alloc),
        }
    }

    /// Whether there is a slot, and none of the other class is taken at the same set and binding.
    fn fits(&self, slot: Option<(u32, u32, u32)>) -> bool
        ensures { (insts before : List Instruction) → HasSlots insts self.now before → result ≡ slot_fits insts before slot }
    {
        match slot {
            Some((set, binding, class)) => !self
                .taken
                .contains(&(set, binding, other_class(class))),
            None => false,
        }
    }

    /// Whether an instruction fits behind those that were read.
    #[tactic(auto, unfolding(crate::specs::Bindings::binding_fits))]
    fn admits(&self, decorations: &Decorations, inst: &View) -> bool
        ensures { (before : List Instruction) → HasSlots decorations.now self.now before → result ≡ binding_fits decorations.now before (seen inst.now) }
    {
        self.begun || !is_buffer(inst) || self.fits(slot_of(decorations, inst))
    }

    /// Reads one instruction more. Whether it does not fit.
    fn read(&mut self, decorations: &Decorations, inst: &View) -> Result<bool, NoMemory>
        ensures { IfOk result (λ unfit. Follows (HasSlots decorations.now) (clashes decorations.now) self.old self.new (seen inst.now) unfit) }
    {
        let fits = self.admits(decorations, inst);
        add(&mut self.taken, slot_of(decorations, inst))?;
        self.begun = has_begun(self.begun, inst);
        Ok(!fits)
    }
}

/// Marks each Uniform or StorageBuffer variable outside functions that has no set or binding, or whose set and binding
/// are those of a variable before it of the other class: one mark for each instruction.
pub fn clashing(
    alloc: Global,
    insts: &InstList,
    decorations: &Decorations,
) -> Result<Vec<bool>, NoMemory>
    ensures { IfOk result (λ marks. AreClashing decorations.now insts.now marks.items) }
{
    let mut slots = Slots::new(alloc);
    let mut marks = Vec::new(alloc);
    'instructions: for k in 0..insts.count() {
        let unfit = slots.read(decorations, &insts.at(k))?;
        marks.push(unfit)?;
    }
    Ok(marks)
}

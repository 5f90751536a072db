ghost use Rattle.std.specs.Prelude.{◌≡◌, ℕ, ◌||◌, IfOk, OnOk};
ghost use Rattle.std.specs.BTreeSet.{contains};
ghost use Rattle.std.specs.Ordering.{nat_cmp};
ghost use Rattle.spv_module.specs.View.{seen};
ghost use Rattle.spv_functions.specs.Functions.{defines_pointer, is_pointer};

use spv_base::NoMemory;
use spv_module::{Flat, View};
use spv_opcodes::op;
use std::alloc::Global;
use std::collections::BTreeSet;

/// Adds the type that an instruction defines, if that is an OpTypePointer.
fn add_pointer(types: &mut BTreeSet<u32>, inst: &View) -> Result<(), NoMemory>
    ensures { OnOk result ((t : ℕ) → contains nat_cmp types.new t ≡ (contains nat_cmp types.old t || defines_pointer t (seen inst.now))) }
{
    if inst.opcode() == op::TYPE_POINTER {
        if let Some(id) = inst.result() {
            types.insert(id.number())?;
        }
    }
    Ok(())
}

/// The pointer types of a module: the id of each OpTypePointer.
pub fn pointers(alloc: Global, flat: &Flat) -> Result<BTreeSet<u32>, NoMemory>
    ensures { IfOk result (λ types. (t : ℕ) → contains nat_cmp types t ≡ is_pointer flat.now.insts t) }
{
    let mut types = BTreeSet::new(alloc);
    'instructions: for k in 0..flat.count() {
        add_pointer(&mut types, &flat.at(k))?;
    }
    Ok(types)
}

ghost use Rattle.std.specs.Prelude.{◌≡◌, ◌<◌, ◌^◌, IfOk};
ghost use Rattle.spv_bound.specs.Bound.{bound_of_ids};
ghost use Rattle.spv_module.specs.View.{seen};
ghost use Rattle.spv_stripped.specs.Strip.{stays as stays_in, stripped, stripped_insts};

use spv_base::{Header, NoMemory};
use spv_bound::bound_of;
use spv_module::layout::is_line;
use spv_module::{Flat, InstList, View};
use spv_opcodes::op;
use std::alloc::Global;

/// Whether an instruction stays: it is no string, source, name, note on how the module was processed, or
/// line mark.
fn stays(inst: &View) -> bool
    ensures { result ≡ stays_in (seen inst.now) }
{
    !matches!(
        inst.opcode(),
        op::STRING
            | op::SOURCE
            | op::SOURCE_CONTINUED
            | op::SOURCE_EXTENSION
            | op::NAME
            | op::MEMBER_NAME
            | op::MODULE_PROCESSED
    ) && !is_line(inst)
}

/// The instructions that stay.
fn strip_insts(alloc: Global, insts: &InstList) -> Result<InstList, NoMemory>
    ensures { IfOk result (λ kept. kept ≡ stripped_insts insts.now) }
{
    let mut kept = InstList::new(alloc);
    'instructions: for k in 0..insts.count() {
        let inst = insts.at(k);
        if stays(&inst) {
            kept.push_view(inst)?;
        }
    }
    Ok(kept)
}

/// A module without what says something of its source alone, under the bound that its ids ask for.
pub fn strip_debug(alloc: Global, flat: &Flat) -> Result<Flat, NoMemory>
    requires { bound_of_ids flat.now.insts < 2 ^ 32 }
    ensures { IfOk result (λ kept. kept ≡ stripped flat.now) }
{
    let insts = strip_insts(alloc, flat.insts())?;
    let header = Header {
        bound: bound_of(&insts) as u32,
        ..flat.header()
    };
    Flat::new(alloc, header, insts)
}

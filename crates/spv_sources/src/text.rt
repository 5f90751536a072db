// A block behind its OpPhi.
ghost use Rattle.std.specs.Prelude.{◌≡◌, ◌≤◌, drop, length, IfOk};
ghost use Rattle.spv_sources.specs.Tail.{IsTail, behind_phi_insts};
ghost use Rattle.spv_sources.specs.Told.{IsTextOf};

use crate::close::Text;
use crate::closing::close_at;
use crate::reading::{past_phis, steps_in, stop_from};
use crate::unmarked::Unmarked;
use spv_base::NoMemory;
use std::alloc::Global;

/// The block whose instructions begin with the one numbered `start`, behind its OpPhi.
pub(crate) fn text_at(alloc: Global, insts: &Unmarked, start: usize) -> Result<Text, NoMemory>
    requires within { start ≤ length insts.now }
    requires tail { IsTail (behind_phi_insts (drop start insts.now)) }
    ensures { IfOk result (λ text. IsTextOf (behind_phi_insts (drop start insts.now)) text) }
{
    let from = past_phis(insts, start);
    let stop = stop_from(insts, from);
    let steps = steps_in(alloc, insts, from, stop)?;
    let close = close_at(alloc, insts, stop)?;
    Ok(Text { steps, close })
}

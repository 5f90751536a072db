ghost use Rattle.std.specs.Prelude.{◌≡◌, ℕ, IfOk};
ghost use Rattle.spv_blocks.specs.Tables.{found};
ghost use Rattle.spv_walk.specs.Walked.{AreEnterers, InPlaces, IsWalk};
ghost use Rattle.spv_walking.specs.Table.{context_of};
ghost use Rattle.spv_walking.specs.Steps.{Begins};

use crate::going::Going;
use crate::walked::Walked;
use spv_base::NoMemory;
use spv_blocks::{Labels, Table};
use std::alloc::Global;

/// The walk that has come to the first block alone, outside all constructs.
pub(crate) fn begin(alloc: Global, labels: &Labels) -> Result<Going, NoMemory>
    ensures { IfOk result (λ going. Begins labels.now going) }
{
    let mut going = Going {
        walked: Walked::new(alloc, labels)?,
        waiting: Vec::new(alloc),
    };
    if let Some(label) = labels.first() {
        going.visit(label, 0)?;
    }
    Ok(going)
}

/// The blocks of a function that are walked, each in its context, by the blocks from which labels are entered.
pub fn walk(alloc: Global, labels: &Labels, enterers: &Table<u32>) -> Result<Walked, NoMemory>
    requires { AreEnterers labels.now (λ label. found enterers.now label) }
    ensures { IfOk result (λ walked. IsWalk labels.now (InPlaces (context_of walked))) }
{
    let mut going = begin(alloc, labels)?;
    'turns: while let Some(label) = going.next() {
        going.turn(labels, enterers, label)?;
    }
    let Going { walked, waiting: _ } = going;
    Ok(walked)
}

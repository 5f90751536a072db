ghost use Rattle.std.specs.Prelude.{◌≡◌, IfOk};
ghost use Rattle.spv_draft.specs.Named.{used_ids};
ghost use Rattle.spv_draft.specs.Tallies.{Counts};

use crate::lines::Lines;
use crate::tally::{Tally, add_used};
use spv_base::{Id, NoMemory};
use std::alloc::Global;

/// How often each id is used, names and decorations aside.
#[derive(Debug, Drop)]
pub struct Uses {
    tally: Tally,
}

/// How often each id is used, names and decorations aside.
fn tally_used(alloc: Global, lines: &Lines) -> Result<Tally, NoMemory>
    ensures { IfOk result (λ tally. Counts tally (used_ids lines.now)) }
{
    let mut tally = Tally::new(alloc);
    'lines: for k in 0..lines.count() {
        add_used(&mut tally, &lines.at(k))?;
    }
    Ok(tally)
}

impl Uses {
    ghost use Rattle.std.specs.Prelude.{◌≡◌, IfOk};
    ghost use Rattle.spv_draft.specs.Named.{used_ids};
    ghost use Rattle.spv_draft.specs.Tallies.{counted, CountsUses};

    pub(crate) fn of_lines(alloc: Global, lines: &Lines) -> Result<Uses, NoMemory>
        ensures { IfOk result (λ uses. CountsUses uses lines.now) }
    {
        Ok(Uses {
            tally: tally_used(alloc, lines)?,
        })
    }

    /// How many operand words name an id, names and decorations aside.
    pub fn of(&self, id: Id) -> u32
        ensures { result ≡ counted self.now id }
    {
        self.tally.of(id.number())
    }
}

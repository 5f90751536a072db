ghost use Rattle.std.specs.Prelude.{◌≡◌, IfOk, OnOk};
ghost use Rattle.spv_parse.specs.Arms.{others_of, AddsTarget};

use spv_base::{Id, NoMemory};
use spv_tree::Case;
use std::alloc::Global;
use std::collections::BTreeSet;

/// The targets of the cases of a switch, each where it is named first, without that of the default.
pub(crate) fn other_targets(alloc: Global, default: Id, cases: &[Case]) -> Result<Vec<Id>, NoMemory>
    ensures { IfOk result (λ targets. targets.items ≡ others_of default cases.now) }
{
    let mut targets = Vec::new(alloc);
    let mut seen = BTreeSet::new(alloc);
    seen.insert(default.number())?;
    'cases: for case in cases {
        add_target(&mut targets, &mut seen, case.target)?;
    }
    Ok(targets)
}

/// Adds a target, unless it is there or is that of the default.
fn add_target(targets: &mut Vec<Id>, seen: &mut BTreeSet<u32>, target: Id) -> Result<(), NoMemory>
    ensures { OnOk result (AddsTarget target seen.old seen.new targets.old.items targets.new.items) }
{
    if seen.insert(target.number())? {
        targets.push(target)?;
        Ok(())
    } else {
        Ok(())
    }
}

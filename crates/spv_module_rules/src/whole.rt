ghost use Rattle.std.specs.Prelude.{◌≡◌, IfOk};
ghost use Rattle.spv_module.specs.First.{first};
ghost use Rattle.spv_walk.specs.Rules.{IsFirst};
ghost use Rattle.spv_calls.specs.Broken.{AreTests, Rises, Tests, group_6};
ghost use Rattle.spv_functions.specs.Functions.{AreShapes};
ghost use Rattle.spv_module_rules.specs.Broken.{BrokenInWhole, Checks};
ghost use Rattle.spv_module_rules.specs.Kept.{AreUnbroken};

use crate::exits::many_exits;
use spv_base::{Fault, NoMemory, Refusal};
use spv_calls::{Calls, Entries};
use spv_faults::earlier;
use spv_flow::Shape;
use spv_module::Flat;
use spv_types::Tables;
use std::alloc::Global;

/// The first rule from 601 to 606 that a module breaks.
fn first_on_calls(alloc: Global, tables: &Tables) -> Result<Option<Refusal>, NoMemory>
    requires { Rises tables.now }
    ensures { IfOk result (λ refusal. (tests : Tests) → AreTests tables.now tests → refusal ≡ first (group_6 tests tables.now)) }
{
    let kinds = tables.kinds();
    let entries = Entries::of(alloc, kinds, tables.decorations())?;
    let calls = Calls::of(alloc, kinds)?;
    let refusal = spv_calls::first_broken(alloc, &calls, &entries)?;
    Ok(refusal)
}

/// The first rule from 601 to 607 that a module breaks, where its functions break none on structured control flow.
pub(crate) fn first_broken(
    alloc: Global,
    tables: &Tables,
    flat: &Flat,
    shapes: &[Shape],
) -> Result<Option<Refusal>, NoMemory>
    requires same { tables.now ≡ flat.now.insts }
    requires rises { Rises flat.now.insts }
    requires shapes { AreShapes flat.now.insts shapes.now }
    ensures { IfOk result (λ refusal. AreUnbroken flat.now.insts → IsFirst (BrokenInWhole flat.now.insts) refusal) }
{
    let on_calls = first_on_calls(alloc, tables)?;
    let on_exits = many_exits(alloc, flat, shapes)?;
    Ok(earlier(on_calls, on_exits))
}

/// Looks for the rules on the whole module, 601 to 607. The module's functions are to break no rule on structured
/// control flow, and the places of its instructions rise from 5 on. The shapes are those of its functions, in order.
///
/// # Errors
/// The first broken rule, if there is one, at the first word of the instruction that breaks it; or memory is wanting.
pub fn check_whole(
    alloc: Global,
    tables: &Tables,
    flat: &Flat,
    shapes: &[Shape],
) -> Result<(), Fault>
    requires same { tables.now ≡ flat.now.insts }
    requires rises { Rises flat.now.insts }
    requires clean { AreUnbroken flat.now.insts }
    requires shapes { AreShapes flat.now.insts shapes.now }
    ensures { Checks (BrokenInWhole flat.now.insts) result }
{
    match first_broken(alloc, tables, flat, shapes)? {
        Some(refusal) => Err(Fault::Refused(refusal)),
        None => Ok(()),
    }
}

ghost use Rattle.std.specs.Prelude.{◌≡◌, ◌<◌, count_by};
ghost use Rattle.spv_module.specs.Code.{is_function};
ghost use Rattle.spv_types.specs.Whole.{Rises};
ghost use Rattle.spv_blocks.specs.Cutting.{blocks_of, function_insts};
ghost use Rattle.spv_functions.specs.Functions.{AreShapes, IsDeclared};
ghost use Rattle.spv_check.specs.Broken.{BrokenInBodies, BrokenInBody, Checks};

use crate::bodies::Bodies;
use crate::listing::first_listed;
use spv_base::Fault;
use spv_body_rules::first_broken;
use spv_faults::earlier;
use spv_flow::Shape;
use spv_module::Flat;
use spv_types::Tables;
use std::alloc::Global;

/// Whether no instruction of a module breaks a rule from 501 to 507; else the first one that is broken. The module, with
/// these tables, breaks no rule on layout and on declarations, and the places of its instructions rise from 5 on. The shapes
/// are those of its functions, in order, so that these break no rule on structured control flow.
pub fn check<'a>(
    alloc: Global,
    tables: &'a Tables<'a>,
    flat: &Flat,
    shapes: &[Shape],
) -> Result<(), Fault>
    requires same { tables.now ≡ flat.now.insts }
    requires rises { Rises flat.now.insts }
    requires declared { IsDeclared flat.now.insts }
    requires shapes { AreShapes flat.now.insts shapes.now }
    ensures { Checks (BrokenInBodies flat.now.insts) result }
{
    let listed = first_broken(alloc, tables)?;
    let bodies = Bodies::of(alloc, flat)?;
    let missing = bodies.missing(alloc, shapes)?;
    match earlier(listed, missing) {
        Some(refusal) => Err(Fault::Refused(refusal)),
        None => Ok(()),
    }
}

/// The same of the function numbered `f` of the module, counted from 0, whose shape it is. It takes time in proportion to the
/// module: `check` looks at all functions in one such time.
pub fn check_body<'a>(
    alloc: Global,
    tables: &'a Tables<'a>,
    flat: &Flat,
    f: u32,
    shape: &Shape,
) -> Result<(), Fault>
    requires same { tables.now ≡ flat.now.insts }
    requires rises { Rises flat.now.insts }
    requires declared { IsDeclared flat.now.insts }
    requires within { f < count_by is_function flat.now.insts }
    requires shape { shape.now ≡ blocks_of (function_insts f flat.now.insts) }
    ensures { Checks (BrokenInBody flat.now.insts f) result }
{
    prove!(f < flat.count());
    let bodies = Bodies::of(alloc, flat)?;
    let listed = first_listed(alloc, tables, &bodies, f + 1)?;
    let missing = bodies.missing_in(alloc, f, shape)?;
    match earlier(listed, missing) {
        Some(refusal) => Err(Fault::Refused(refusal)),
        None => Ok(()),
    }
}

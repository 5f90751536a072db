ghost use Rattle.std.specs.Prelude.{◌<◌, count_by};
ghost use Rattle.spv_module.specs.Code.{is_function};
ghost use Rattle.spv_blocks.specs.Cutting.{function_insts};
ghost use Rattle.spv_functions.specs.Functions.{Answers, IsDeclared, Normalizes, is_pointer};

use crate::functions::Functions;
use spv_base::Fault;
use spv_module::{Flat, InstList};
use spv_tree::{Body, flatten};
use std::alloc::Global;

/// The tree of the function numbered `f` of a module, counted from 0. It is refused exactly by the first broken rule on
/// structured control flow; where none is broken, it nests too deep exactly where more than 255 constructs lie round one
/// point.
///
/// The module is to break no rule on layout and on declarations. It is gone through once for what `Functions` holds: to read
/// many of its functions, make that once.
pub fn parse(alloc: Global, flat: &Flat, f: u32) -> Result<Body, Fault>
    requires declared { IsDeclared flat.now.insts }
    requires within { f < count_by is_function flat.now.insts }
    ensures { Answers (is_pointer flat.now.insts) (function_insts f flat.now.insts) result }
{
    Functions::of(alloc, flat)?.parse(alloc, flat, f)
}

/// The instructions of the normal form of the function numbered `f` of a module, counted from 0. It is refused as by
/// `parse`.
///
/// The module is to break no rule on layout and on declarations.
pub fn normalize(alloc: Global, flat: &Flat, f: u32) -> Result<InstList, Fault>
    requires declared { IsDeclared flat.now.insts }
    requires within { f < count_by is_function flat.now.insts }
    ensures { Normalizes (is_pointer flat.now.insts) (function_insts f flat.now.insts) result }
{
    let body = parse(alloc, flat, f)?;
    Ok(flatten(alloc, &body)?)
}

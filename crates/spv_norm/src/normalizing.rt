ghost use Rattle.std.specs.Prelude.{◌≡◌, IfOk};
ghost use Rattle.spv_tree.specs.Tree.{words_of};
ghost use Rattle.spv_bound.specs.Bound.{bound_of_ids};
ghost use Rattle.spv_norm.specs.Norm.{IsNorm, function_lines};
ghost use Rattle.spv_norm.specs.Bodies.{AreTrees};

use crate::label_set::labels;
use crate::staying::push_staying_outside;
use spv_base::{Header, NoMemory};
use spv_bound::bound_of;
use spv_ids::Definitions;
use spv_module::{Flat, InstList};
use spv_tree::{Body, flatten_into};
use std::alloc::Global;

/// The most instructions of a module.
const LONGEST: usize = 0xFFFF_FFFF;

/// The functions of a module in their normal forms, by their trees.
fn functions(alloc: Global, flat: &Flat, bodies: &[Body]) -> Result<InstList, NoMemory>
    requires { AreTrees flat.now.insts bodies.now }
    ensures { IfOk result (λ insts. words_of insts ≡ function_lines flat.now.insts) }
{
    let mut insts = InstList::new(alloc);
    'bodies: for body in bodies {
        flatten_into(alloc, &mut insts, body)?;
    }
    Ok(insts)
}

/// The module of these instructions, with the bound that their ids ask for. Where there would be 2^32 instructions or more, or
/// the bound does not fit, memory is said to be wanting.
fn sealed(alloc: Global, header: Header, insts: InstList) -> Result<Flat, NoMemory>
    ensures { IfOk result (λ flat. (flat.insts ≡ insts) × (flat.header ≡ record header { bound = bound_of_ids insts })) }
{
    if insts.count() > LONGEST {
        return Err(NoMemory);
    }
    let bound = u32::try_from(bound_of(&insts)).map_err(|_| NoMemory)?;
    Flat::new(alloc, Header { bound, ..header }, insts)
}

/// A module in its normal form, by the trees of its functions.
#[tactic(auto, using(crate::proofs::Stepwise::last_first))]
pub fn norm(alloc: Global, flat: &Flat, bodies: &[Body]) -> Result<Flat, NoMemory>
    requires { AreTrees flat.now.insts bodies.now }
    ensures { IfOk result (λ norm. IsNorm flat.now norm) }
{
    let mut insts = functions(alloc, flat, bodies)?;
    let behind = insts.count();
    let labels = labels(alloc, &insts)?;
    let definitions = Definitions::of(alloc, flat)?;
    push_staying_outside(&mut insts, &definitions, &labels)?;
    insts.rotate_left(behind);
    sealed(alloc, flat.header(), insts)
}

// What stands before the first block.
ghost use Rattle.std.specs.Prelude.{◌≡◌, ◌≤◌, ◌<◌, ◌∷◌, length, take, drop, IfOk};
ghost use Rattle.spv_normal.specs.Lines.{before_labels};
ghost use Rattle.spv_spelling.specs.Whole.{IsText};
ghost use Rattle.spv_tree.specs.Tree.{words_of};
ghost use Rattle.spv_sources.specs.Told.{IsFirstMark};

use crate::begins::is_label;
use crate::reading::owned;
use crate::unmarked::Unmarked;
use spv_base::NoMemory;
use spv_module::{Inst, InstList};
use std::alloc::Global;

/// What stands before the first block.
#[derive(Drop)]
pub struct Heading {
    /// The OpFunction.
    pub function: Inst,
    /// Its OpFunctionParameter, in order.
    pub parameters: InstList,
}

/// The number of the first OpLabel.
pub(crate) fn first_mark(insts: &Unmarked) -> usize
    requires { IsText insts.now }
    ensures { IsFirstMark insts.now result }
{
    'each: for k in 0..insts.count() {
        if is_label(&insts.at(k)) {
            return k;
        }
    }
    unreachable!()
}

/// The instructions from the second on, up to one.
fn parameters_in(alloc: Global, insts: &Unmarked, stop: usize) -> Result<InstList, NoMemory>
    requires some { 0 < stop }
    requires within { stop ≤ length insts.now }
    ensures { IfOk result (λ parameters. parameters ≡ drop 1 (take stop insts.now)) }
{
    let mut parameters = InstList::new(alloc);
    'each: for k in 1..stop {
        parameters.push_view(insts.at(k))?;
    }
    Ok(parameters)
}

/// What stands before the first block.
pub(crate) fn heading_of(alloc: Global, insts: &Unmarked) -> Result<Heading, NoMemory>
    requires { IsText insts.now }
    ensures { IfOk result (λ heading. words_of (before_labels insts.now) ≡ heading.function.words ∷ words_of heading.parameters) }
{
    let stop = first_mark(insts);
    Ok(Heading {
        function: owned(alloc, &insts.at(0))?,
        parameters: parameters_in(alloc, insts, stop)?,
    })
}

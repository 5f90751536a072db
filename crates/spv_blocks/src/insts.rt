ghost use Rattle.std.specs.Prelude.{◌≡◌, ◌≤◌, drop, take, length, IfOk};
ghost use Rattle.spv_blocks.specs.Cutting.{rest_of_function, starts as starts_in};

use crate::parts::{is_function, is_function_end};
use spv_module::{Flat, InstList, NoMemory, View};
use std::alloc::Global;
use std::marker::Model;

/// The instructions of a function, in order. It borrows the module.
#[derive(Debug, Drop)]
pub struct Insts<'a> {
    insts: &'a InstList,
    start: usize,
    end: usize,
}

impl<'a> Model for Insts<'a> {
    ghost use Rattle.std.specs.Prelude.{◌≤◌, ◌<◌, ◌^◌, List, length, drop, take};
    ghost use Rattle.spv_module.specs.Instruction.{Instruction};

    ghost Value = { List Instruction };

    ghost view = { λ part. drop part.start (take part.end part.insts.now) };

    ghost invariant = { λ part. (part.start ≤ part.end) × (part.end ≤ length part.insts.now) × (length part.insts.now < 2 ^ 32) };
}

/// The number of each OpFunction among the instructions of a module.
pub fn starts(alloc: Global, flat: &Flat) -> Result<Vec<u32>, NoMemory>
    ensures { IfOk result (λ numbers. numbers.items ≡ starts_in flat.now.insts) }
{
    let mut numbers = Vec::new(alloc);
    'instructions: for k in 0..flat.count() {
        if is_function(&flat.at(k)) {
            numbers.push(k)?;
        }
    }
    Ok(numbers)
}

/// The number of the instruction behind the last one of a function, of which the instructions before `from` are
/// looked at.
fn end_of(insts: &InstList, from: usize) -> usize
    requires { from ≤ length insts.now }
    ensures rest { drop from (take result insts.now) ≡ rest_of_function (drop from insts.now) }
    ensures behind { from ≤ result }
    ensures within { result ≤ length insts.now }
{
    'instructions: for k in from..insts.count() {
        let inst = insts.at(k);
        if is_function(&inst) {
            return k;
        }
        if is_function_end(&inst) {
            return k + 1;
        }
    }
    insts.count()
}

impl<'a> Insts<'a> {
    ghost use Rattle.std.specs.Prelude.{◌<◌, ◌^◌, Some, slice_get};
    ghost use Rattle.spv_module.specs.View.{seen};
    ghost use Rattle.spv_blocks.specs.Cutting.{function_at};

    /// The instructions of the function that begins with the instruction numbered `first`.
    pub fn from(flat: &'a Flat, first: u32) -> Insts<'a>
        ensures { result ≡ function_at first flat.now.insts }
    {
        let insts = flat.insts();
        let start = first as usize;
        if start < insts.count() {
            Insts {
                insts,
                start,
                end: end_of(insts, start + 1),
            }
        } else {
            Insts {
                insts,
                start: 0,
                end: 0,
            }
        }
    }

    /// The number of instructions.
    pub fn count(&self) -> usize
        ensures count { result ≡ length self.now }
        ensures few { result < 2 ^ 32 }
    {
        self.end - self.start
    }

    /// The k-th instruction, counted from 0.
    pub fn at(&self, k: usize) -> View<'a>
        requires { k < length self.now }
        ensures { slice_get self.now k ≡ Some (seen result) }
    {
        self.insts.at(self.start + k)
    }
}

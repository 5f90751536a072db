ghost use Rattle.std.specs.Prelude.{◌≡◌, ◌<◌, ◌^◌, Some, length, map, slice_get, IfOk};
ghost use Rattle.spv_module.specs.View.{seen};
ghost use Rattle.spv_normal.specs.Lines.{without_marks};

use spv_base::NoMemory;
use spv_blocks::Insts;
use spv_module::View;
use spv_module::layout::is_line;
use std::alloc::Global;
use std::marker::Model;

/// The instructions of a function but its line marks, in order. It borrows those of the function.
#[derive(Debug, Drop)]
pub struct Unmarked<'a> {
    insts: &'a Insts<'a>,
    /// The numbers of those that are no line marks.
    numbers: Vec<usize>,
}

impl<'a> Model for Unmarked<'a> {
    ghost use Rattle.std.specs.Prelude.{◌≡◌, List, Some, map, slice_get};
    ghost use Rattle.spv_module.specs.Instruction.{Instruction};
    ghost use Rattle.spv_normal.specs.Lines.{without_marks};

    ghost Value = { List Instruction };

    ghost view = { λ part. without_marks part.insts.now };

    ghost invariant = { λ part. map (slice_get part.insts.now) part.numbers.items ≡ map Some (without_marks part.insts.now) };
}

/// The numbers of the instructions that are no line marks.
fn numbers_of(alloc: Global, insts: &Insts) -> Result<Vec<usize>, NoMemory>
    ensures { IfOk result (λ numbers. map (slice_get insts.now) numbers.items ≡ map Some (without_marks insts.now)) }
{
    let mut numbers = Vec::new(alloc);
    'each: for k in 0..insts.count() {
        if !is_line(&insts.at(k)) {
            numbers.push(k)?;
        }
    }
    Ok(numbers)
}

impl<'a> Unmarked<'a> {
    /// The instructions of a function but its line marks.
    pub fn of(alloc: Global, insts: &'a Insts<'a>) -> Result<Unmarked<'a>, NoMemory>
        ensures { IfOk result (λ part. part ≡ without_marks insts.now) }
    {
        let numbers = numbers_of(alloc, insts)?;
        Ok(Unmarked { insts, numbers })
    }

    /// The number of instructions.
    pub fn count(&self) -> usize
        ensures { result ≡ length self.now }
    {
        self.numbers.len()
    }

    /// The k-th instruction, counted from 0.
    pub fn at(&self, k: usize) -> View<'a>
        requires { k < length self.now }
        ensures { slice_get self.now k ≡ Some (seen result) }
    {
        self.insts.at(self.numbers[k])
    }
}

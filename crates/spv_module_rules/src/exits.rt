ghost use Rattle.std.specs.Prelude.{◌≡◌, ℕ, nat_le, IfOk};
ghost use Rattle.spv_module.specs.First.{first};
ghost use Rattle.spv_exits.specs.Exits.{AreNestedReturns, capped, crowded, crowded_in_all, functions_of};
ghost use Rattle.spv_functions.specs.Functions.{AreShapes};
ghost use Rattle.spv_module_rules.specs.Kept.{AreCounted, AreUnbroken, IsFirstCrowded, blocks_together};

use spv_base::{NoMemory, Refusal};
use spv_blocks::Labels;
use spv_exits::{add_nested, first_crowded, nested_returns, rule};
use spv_faults::earlier;
use spv_flow::Shape;
use spv_module::Flat;
use std::alloc::Global;

/// So many blocks of all functions together break 607 nowhere: no more of them branch to one, and no more returns are nested.
const FEW_BLOCKS: usize = rule::MOST_EXITS / 2;

/// Whether functions have so few blocks together.
fn have_few_blocks(shapes: &[Shape]) -> bool
    ensures { result ≡ nat_le (blocks_together shapes.now) 8191 }
{
    let mut left = FEW_BLOCKS;
    'each: for shape in shapes {
        let count = shape.function().count();
        if count > left {
            return false;
        }
        left -= count;
    }
    true
}

/// How many nested returns a function has.
fn nested_in(shape: &Shape) -> usize
    ensures { AreNestedReturns shape.now result }
{
    nested_returns(shape.function(), shape.flow().walked())
}

/// The nested returns of functions together, counted up to 16,384.
fn nested_together(shapes: &[Shape]) -> usize
    ensures { AreCounted shapes.now result }
{
    let mut nested = 0;
    'each: for shape in shapes {
        nested = add_nested(nested, nested_in(shape));
    }
    nested
}

/// The first block of a function that breaks 607, where there are so many nested returns together.
fn crowded_in(alloc: Global, shape: &Shape, nested: usize) -> Result<Option<Refusal>, NoMemory>
    ensures { (n : ℕ) → nested ≡ capped n → IfOk result (λ refusal. refusal ≡ first (crowded shape.now n)) }
{
    let labels = Labels::of(alloc, shape.function())?;
    first_crowded(alloc, shape.function(), &labels, nested)
}

/// The first block of functions that breaks 607, where there are so many nested returns together.
fn first_crowded_in(
    alloc: Global,
    shapes: &[Shape],
    nested: usize,
) -> Result<Option<Refusal>, NoMemory>
    ensures { (n : ℕ) → nested ≡ capped n → IfOk result (λ refusal. refusal ≡ first (crowded_in_all shapes.now n)) }
{
    let mut refusal = None;
    'each: for shape in shapes {
        let here = crowded_in(alloc, shape, nested)?;
        refusal = earlier(refusal, here);
    }
    Ok(refusal)
}

/// 607: the first block of a module where the blocks that branch there and the nested returns of all functions are too
/// many together. Where there are few blocks, none is looked at. The shapes are those of the functions of the module.
pub(crate) fn many_exits(
    alloc: Global,
    flat: &Flat,
    shapes: &[Shape],
) -> Result<Option<Refusal>, NoMemory>
    requires { AreShapes flat.now.insts shapes.now }
    ensures { IfOk result (λ refusal. AreUnbroken flat.now.insts → IsFirstCrowded (functions_of flat.now.insts) refusal) }
{
    if have_few_blocks(shapes) {
        return Ok(None);
    }
    let nested = nested_together(shapes);
    let refusal = first_crowded_in(alloc, shapes, nested)?;
    Ok(refusal)
}

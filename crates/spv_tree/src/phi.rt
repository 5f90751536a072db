ghost use Rattle.std.specs.Prelude.{◌≡◌, ℕ, ◌+◌, ◌*◌, ◌<◌, ◌≤◌, ◌^◌, ◌++◌, ◌∷◌, [], length, slice_index, map, All, IfOk, OnOk};
ghost use Rattle.spv_opcodes.specs.declared.op.TheConstants as op;
ghost use Rattle.spv_bodies.specs.Listing.{from_block, front_lines, instruction, pair_words, phi_line, phi_lines, phi_pairs};
ghost use Rattle.spv_tree.specs.Tree.{front_of, parameter_of, words_of};
ghost use Rattle.spv_tree.specs.Branches.{branchings, shown, of_block};
ghost use Rattle.spv_tree.specs.Fronts.{CarriesAll, IsShort, IsFilled};
ghost use Rattle.spv_tree.specs.Phi.{AddsIds, Carries, IsMade};

use crate::arrivals::Arrivals;
use crate::body::{Front, Parameter};
use crate::branch::Branch;
use crate::making::{head, push_label, push_words};
use crate::ordering::{Blocks, by_block, ordered};
use spv_base::{Id, NoMemory};
use spv_module::InstList;
use spv_opcodes::op;
use std::alloc::Global;

fn push_id(words: &mut Vec<u32>, id: Id) -> Result<(), NoMemory>
    ensures { OnOk result (AddsIds words.old.items words.new.items (id ∷ [])) }
{
    words.push(id.number())?;
    Ok(())
}

// The k-th value of a branch and the block that it comes from.
fn push_pair(words: &mut Vec<u32>, branch: &Branch, k: usize) -> Result<(), NoMemory>
    requires { k < length branch.now.values }
    ensures { OnOk result (AddsIds words.old.items words.new.items (slice_index branch.now.values k ∷ branch.now.block ∷ [])) }
{
    push_id(words, branch.values.as_slice()[k])?;
    push_id(words, branch.block)
}

fn push_pairs(words: &mut Vec<u32>, branches: &[&Branch], k: usize) -> Result<(), NoMemory>
    requires { All (Carries k) (shown branches.now) }
    ensures { OnOk result (AddsIds words.old.items words.new.items (pair_words (phi_pairs k (shown branches.now)))) }
{
    'branches: for branch in branches {
        push_pair(words, branch, k)?;
    }
    Ok(())
}

// The words of the OpPhi of the k-th parameter, with a pair for each branch, in order.
fn words_of_phi(
    alloc: Global,
    parameter: &Parameter,
    k: usize,
    branches: &[&Branch],
) -> Result<Vec<u32>, NoMemory>
    requires carried { All (Carries k) (shown branches.now) }
    requires short { 3 + 2 * length branches.now ≤ 65535 }
    ensures { IfOk result (λ words. IsMade words.items (instruction op.PHI (parameter.now.type_id ∷ parameter.now.result_id ∷ pair_words (phi_pairs k (shown branches.now))))) }
{
    let mut words = Vec::new(alloc);
    words.push(head(3 + 2 * branches.len() as u16, op::PHI))?;
    push_id(&mut words, parameter.type_id)?;
    push_id(&mut words, parameter.result_id)?;
    push_pairs(&mut words, branches, k)?;
    Ok(words)
}

// The OpPhi of the k-th parameter.
fn push_phi<'a>(
    alloc: Global,
    insts: &mut InstList,
    parameter: &Parameter,
    k: usize,
    arriving: &'a [Branch],
    blocks: &Blocks<'a>,
) -> Result<(), NoMemory>
    requires grouped { (block : ℕ) → shown (of_block blocks.now block) ≡ from_block (branchings arriving.now) block }
    requires carried { All (Carries k) (branchings arriving.now) }
    requires short { IsShort (branchings arriving.now) (parameter_of parameter.now) }
    ensures { OnOk result (words_of insts.new ≡ words_of insts.old ++ phi_line k (branchings arriving.now) (parameter_of parameter.now) ∷ []) }
{
    let branches = ordered(alloc, arriving, blocks, parameter.parents.as_slice())?;
    let words = words_of_phi(alloc, parameter, k, &branches)?;
    push_words(alloc, insts, &words)
}

fn push_phis(
    alloc: Global,
    insts: &mut InstList,
    parameters: &[Parameter],
    arriving: &[Branch],
) -> Result<(), NoMemory>
    requires carried { All (CarriesAll (length parameters.now)) (branchings arriving.now) }
    requires short { All (IsShort (branchings arriving.now)) (map parameter_of parameters.now) }
    ensures { OnOk result (words_of insts.new ≡ words_of insts.old ++ phi_lines 0 (branchings arriving.now) (map parameter_of parameters.now)) }
{
    let blocks = by_block(alloc, arriving)?;
    'parameters: for (k, parameter) in parameters.iter().enumerate() {
        push_phi(alloc, insts, parameter, k, arriving, &blocks)?;
    }
    Ok(())
}

/// Adds the label of a front and its OpPhis.
pub fn push_front(
    alloc: Global,
    insts: &mut InstList,
    arrivals: &Arrivals<'_>,
    front: &Front,
) -> Result<(), NoMemory>
    requires { IsFilled arrivals.now (front_of front.now) }
    ensures { OnOk result (words_of insts.new ≡ words_of insts.old ++ front_lines arrivals.now (front_of front.now)) }
{
    push_label(alloc, insts, front.label)?;
    push_phis(
        alloc,
        insts,
        front.parameters.as_slice(),
        arrivals.at(front.label),
    )
}

ghost use Rattle.std.specs.Prelude.{◌≡◌, ℕ, ◌++◌, ◌∷◌, [], cond, not, nat_eq, filter, IfOk, OnOk};
ghost use Rattle.std.specs.BTreeSet.{contains};
ghost use Rattle.std.specs.List.{list_any, flat_map};
ghost use Rattle.std.specs.Ordering.{nat_cmp};
ghost use Rattle.spv_bodies.specs.Listing.{from_block, in_order};
ghost use Rattle.spv_tree.specs.Branches.{branching_of, branchings, shown, of_block};

use crate::branch::Branch;
use spv_base::{Id, NoMemory};
use std::alloc::Global;
use std::collections::{BTreeMap, BTreeSet};

/// Branches by the block that they end.
pub type Blocks<'a> = BTreeMap<u32, Vec<&'a Branch>>;

fn add<'a>(alloc: Global, blocks: &mut Blocks<'a>, branch: &'a Branch) -> Result<(), NoMemory>
    ensures { OnOk result ((block : ℕ) → shown (of_block blocks.new block) ≡ shown (of_block blocks.old block) ++ cond (nat_eq branch.now.block block) (branching_of branch.now ∷ []) []) }
{
    let group = blocks
        .entry(branch.block.number())?
        .or_insert(Vec::new(alloc));
    group.push(branch)?;
    Ok(())
}

/// The branches by the block that they end, those of one block in their order.
pub fn by_block(alloc: Global, arriving: &[Branch]) -> Result<Blocks<'_>, NoMemory>
    ensures { IfOk result (λ blocks. (block : ℕ) → shown (of_block blocks block) ≡ from_block (branchings arriving.now) block) }
{
    let mut blocks = BTreeMap::new(alloc);
    'branches: for branch in arriving {
        add(alloc, &mut blocks, branch)?;
    }
    Ok(blocks)
}

fn set_of(alloc: Global, ids: &[Id]) -> Result<BTreeSet<u32>, NoMemory>
    ensures { IfOk result (λ set. (id : ℕ) → contains nat_cmp set id ≡ list_any (nat_eq id) ids.now) }
{
    let mut set = BTreeSet::new(alloc);
    'ids: for id in ids {
        set.insert(id.number())?;
    }
    Ok(set)
}

fn push_block<'a>(
    ordered: &mut Vec<&'a Branch>,
    blocks: &Blocks<'a>,
    block: Id,
) -> Result<(), NoMemory>
    ensures { OnOk result (shown ordered.new.items ≡ shown ordered.old.items ++ shown (of_block blocks.now block)) }
{
    match blocks.get(&block.number()) {
        Some(group) => ordered.extend_from_slice(group)?,
        None => {}
    }
    Ok(())
}

fn push_blocks<'a>(
    ordered: &mut Vec<&'a Branch>,
    blocks: &Blocks<'a>,
    parents: &[Id],
) -> Result<(), NoMemory>
    ensures { OnOk result (shown ordered.new.items ≡ shown ordered.old.items ++ flat_map (λ block. shown (of_block blocks.now block)) parents.now) }
{
    'parents: for parent in parents {
        push_block(ordered, blocks, *parent)?;
    }
    Ok(())
}

fn push_others<'a>(
    ordered: &mut Vec<&'a Branch>,
    arriving: &'a [Branch],
    named: &BTreeSet<u32>,
) -> Result<(), NoMemory>
    ensures { OnOk result (shown ordered.new.items ≡ shown ordered.old.items ++ filter (λ branching. not (contains nat_cmp named.now branching.0)) (branchings arriving.now)) }
{
    'branches: for branch in arriving {
        if !named.contains(&branch.block.number()) {
            ordered.push(branch)?;
        }
    }
    Ok(())
}

/// The branches in the order in which an OpPhi that names these blocks has them: those from the named blocks, in the order of the names, then
/// the others.
pub fn ordered<'a>(
    alloc: Global,
    arriving: &'a [Branch],
    blocks: &Blocks<'a>,
    parents: &[Id],
) -> Result<Vec<&'a Branch>, NoMemory>
    requires { (block : ℕ) → shown (of_block blocks.now block) ≡ from_block (branchings arriving.now) block }
    ensures { IfOk result (λ made. shown made.items ≡ in_order parents.now (branchings arriving.now)) }
{
    let named = set_of(alloc, parents)?;
    let mut made = Vec::new(alloc);
    push_blocks(&mut made, blocks, parents)?;
    push_others(&mut made, arriving, &named)?;
    Ok(made)
}

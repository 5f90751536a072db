// The labels that stay for blocks which are joined with one before.
ghost use Rattle.std.specs.Prelude.{◌≡◌, ℕ, ◌+◌, ◌<◌, ◌||◌, true, false, length, slice_get, IfOk, OnOk};
ghost use Rattle.std.specs.BTreeSet.{contains};
ghost use Rattle.std.specs.List.{list_any};
ghost use Rattle.std.specs.Ordering.{nat_cmp};
ghost use Rattle.spv_blocks.specs.Blocks.{Block, is_it, is_label};
ghost use Rattle.spv_normal.specs.Order.{joins};
ghost use Rattle.spv_spelling.specs.Clean.{IsClean, no_pointers};
ghost use Rattle.spv_sources.specs.Staying.{AreFollowed, Follows, Puts, branch_in};

use crate::front::is_front;
use crate::pairing::id_of;
use spv_base::{Id, NoMemory};
use spv_blocks::{End, Labels};
use std::alloc::Global;
use std::collections::{BTreeMap, BTreeSet};

/// The target of a block that ends with OpBranch.
fn branch_of(labels: &Labels, label: u32) -> Option<u32>
    ensures { result ≡ branch_in labels.now label }
{
    match labels.block(label)?.end {
        End::Branch(target) => Some(target),
        _ => None,
    }
}

/// The block that is joined with a block.
fn joined_with(labels: &Labels, label: u32) -> Option<u32>
    ensures { (t : ℕ) → joins labels.now label t ≡ is_it t result }
{
    let target = branch_of(labels, label)?;
    if labels.construct(label).is_none() && !is_front(labels, target) {
        Some(target)
    } else {
        None
    }
}

/// Adds the block that is joined with the k-th block, if one is.
fn add_joined(joined: &mut BTreeSet<u32>, labels: &Labels, k: usize) -> Result<(), NoMemory>
    requires { k < length labels.now }
    ensures { OnOk result ((b : Block) → slice_get labels.now k ≡ Some b → (t : ℕ) → contains nat_cmp joined.new t ≡ (contains nat_cmp joined.old t || joins labels.now b.label t)) }
{
    let Some(label) = labels.label(k) else {
        unreachable!();
    };
    if let Some(target) = joined_with(labels, label) {
        joined.insert(target)?;
    }
    Ok(())
}

/// The blocks that are joined with one before.
fn joined_of(alloc: Global, labels: &Labels) -> Result<BTreeSet<u32>, NoMemory>
    ensures { IfOk result (λ joined. (t : ℕ) → contains nat_cmp joined t ≡ list_any (λ (b : Block). joins labels.now b.label t) labels.now) }
{
    let mut joined = BTreeSet::new(alloc);
    'each: for k in 0..labels.count() {
        add_joined(&mut joined, labels, k)?;
    }
    Ok(joined)
}

fn put(stays: &mut BTreeMap<u32, Id>, label: u32, head: Id) -> Result<(), NoMemory>
    ensures { OnOk result (Puts stays.old stays.new label head) }
{
    stays.insert(label, head).map_err(|_| NoMemory)?;
    Ok(())
}

/// Puts the label of a block for all blocks of the chain behind it. No chain has more blocks than the function.
fn follow(stays: &mut BTreeMap<u32, Id>, labels: &Labels, head: Id) -> Result<(), NoMemory>
    requires clean { IsClean no_pointers labels.now }
    requires is { is_label labels.now head ≡ true }
    ensures { OnOk result (Follows labels.now head stays.old stays.new) }
{
    let mut last = head.number();
    'chain: for k in 0..labels.count() {
        let Some(next) = joined_with(labels, last) else {
            return Ok(());
        };
        put(stays, next, head)?;
        last = next;
    }
    unreachable!()
}

/// Follows the chain of the k-th block, unless it is joined with one before.
fn add_chain(
    stays: &mut BTreeMap<u32, Id>,
    labels: &Labels,
    joined: &BTreeSet<u32>,
    k: usize,
) -> Result<(), NoMemory>
    requires clean { IsClean no_pointers labels.now }
    requires ids { (l : ℕ) → is_label labels.now l ≡ true → 0 < l }
    requires joined { (t : ℕ) → contains nat_cmp joined.now t ≡ list_any (λ (b : Block). joins labels.now b.label t) labels.now }
    requires within { k < length labels.now }
    ensures { OnOk result (AreFollowed labels.now k stays.old → AreFollowed labels.now (k + 1) stays.new) }
{
    let Some(label) = labels.label(k) else {
        unreachable!();
    };
    if !joined.contains(&label) {
        follow(stays, labels, id_of(label))?;
    }
    Ok(())
}

/// The label that stays for each block which is joined with one before.
pub(crate) fn stays_of(alloc: Global, labels: &Labels) -> Result<BTreeMap<u32, Id>, NoMemory>
    requires clean { IsClean no_pointers labels.now }
    requires ids { (l : ℕ) → is_label labels.now l ≡ true → 0 < l }
    ensures { IfOk result (λ stays. AreFollowed labels.now (length labels.now) stays) }
{
    let joined = joined_of(alloc, labels)?;
    let mut stays = BTreeMap::new(alloc);
    'each: for k in 0..labels.count() {
        add_chain(&mut stays, labels, &joined, k)?;
    }
    Ok(stays)
}

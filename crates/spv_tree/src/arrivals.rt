ghost use Rattle.std.specs.Prelude.{◌≡◌, ℕ, ◌++◌, ◌∷◌, [], cond, ◌==◌, IfOk, OnOk};
ghost use Rattle.spv_bodies.specs.Listing.{arriving};
ghost use Rattle.spv_tree.specs.Tree.{body_of};
ghost use Rattle.spv_tree.specs.Branches.{branchings, branches_in, group, HasGroups};

use crate::body::Body;
use crate::branch::Branch;
use crate::gather::gather;
use spv_base::{Id, NoMemory};
use sqlite_items::Items;
use std::alloc::Global;
use std::collections::BTreeMap;
use std::marker::Model;

/// The branches of a body that carry values, by the block that they go to.
#[derive(Drop)]
pub struct Arrivals<'a> {
    body: &'a Body,
    groups: BTreeMap<u32, Items<Branch>>,
}

impl<'a> Model for Arrivals<'a> {
    ghost use Rattle.std.specs.Prelude.{List};
    ghost use Rattle.spv_bodies.specs.Listing.{Branching};
    ghost use Rattle.spv_tree.specs.Tree.{body_of};
    ghost use Rattle.spv_tree.specs.Branches.{branches_in, HasGroups};

    ghost Value = { List Branching };

    ghost view = { λ arrivals. branches_in (body_of arrivals.body.now) };

    ghost invariant = { λ arrivals. HasGroups arrivals.groups (branches_in (body_of arrivals.body.now)) };
}

/// All branches, in the tree's order.
fn all_branches(alloc: Global, body: &Body) -> Result<Vec<Branch>, NoMemory>
    ensures { IfOk result (λ found. branchings found.items ≡ branches_in (body_of body.now)) }
{
    let mut found = Vec::new(alloc);
    gather(alloc, &mut found, body.label, &body.sequence)?;
    Ok(found)
}

fn grouped(alloc: Global, found: Vec<Branch>) -> Result<BTreeMap<u32, Items<Branch>>, NoMemory>
    ensures { IfOk result (λ groups. HasGroups groups (branchings found.items)) }
{
    let mut groups = BTreeMap::new(alloc);
    'branches: for branch in found {
        add(alloc, &mut groups, branch)?;
    }
    Ok(groups)
}

fn add(
    alloc: Global,
    groups: &mut BTreeMap<u32, Items<Branch>>,
    branch: Branch,
) -> Result<(), NoMemory>
    ensures { OnOk result ((label : ℕ) → group groups.new label ≡ group groups.old label ++ cond (branch.target == label) (branch ∷ []) []) }
{
    let group = groups
        .entry(branch.target.number())?
        .or_insert(Items::new(alloc));
    group.push(branch)?;
    Ok(())
}

impl<'a> Arrivals<'a> {
    /// The branches of a body.
    pub fn of(alloc: Global, body: &'a Body) -> Result<Arrivals<'a>, NoMemory>
        ensures { IfOk result (λ arrivals. arrivals ≡ branches_in (body_of body.now)) }
    {
        let found = all_branches(alloc, body)?;
        let groups = grouped(alloc, found)?;
        Ok(Arrivals { body, groups })
    }

    /// The branches to a block, in the tree's order.
    pub fn at(&self, label: Id) -> &[Branch]
        ensures { branchings result.now ≡ arriving label self.now }
    {
        match self.groups.get(&label.number()) {
            Some(group) => group.as_slice(),
            None => &[],
        }
    }
}

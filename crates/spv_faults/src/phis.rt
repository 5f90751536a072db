ghost use Rattle.std.specs.Prelude.{◌≡◌, ◌||◌, ℕ, List, not, true, IfOk};
ghost use Rattle.std.specs.BTreeSet.{contains, IsSameSet};
ghost use Rattle.std.specs.Ordering.{nat_cmp};
ghost use Rattle.spv_module.specs.First.{first};
ghost use Rattle.spv_blocks.specs.Blocks.{seconds as seconds_in};
ghost use Rattle.spv_blocks.specs.Seen.{seen_block, seen_ins};
ghost use Rattle.spv_walk.specs.Phis.{names_each_once as names_each_once_in, phi_fits as phi_fits_in, phi_faults, predecessors};
ghost use Rattle.spv_faults.specs.Once.{IsSetOf};
ghost use Rattle.spv_faults.specs.Parts.{is_phi as is_phi_in, phi_faults_of};

use crate::numbers::{once, seconds};
use crate::refusals::{earlier, fault_at, rule_unless};
use crate::rule;
use spv_base::{NoMemory, Refusal};
use spv_blocks::{Block, Ins, Labels};
use std::alloc::Global;
use std::collections::BTreeSet;

/// Whether two sets have the same numbers.
fn are_same(one: &BTreeSet<u32>, other: &BTreeSet<u32>) -> bool
    ensures yes { result ≡ true → IsSameSet nat_cmp one.now other.now }
    ensures no { IsSameSet nat_cmp one.now other.now → result ≡ true }
{
    one.len() == other.len() && one == other
}

/// Whether the seconds of the pairs are these parents, each once.
fn names_each_once(
    alloc: Global,
    parents: &BTreeSet<u32>,
    pairs: &[(u32, u32)],
) -> Result<bool, NoMemory>
    ensures { IfOk result (λ names. (ps : List ℕ) → IsSetOf ps parents.now → names ≡ names_each_once_in ps (seconds_in pairs.now)) }
{
    let numbers = seconds(alloc, pairs)?;
    match once(alloc, &numbers)? {
        Some(named) => Ok(are_same(&named, parents)),
        None => Ok(false),
    }
}

/// Whether an OpPhi that stands in front of a block has a type and pairs as it may.
fn phi_fits(
    alloc: Global,
    labels: &Labels,
    parents: &BTreeSet<u32>,
    pointers: &BTreeSet<u32>,
    label: u32,
    kind: u32,
    pairs: &[(u32, u32)],
) -> Result<bool, NoMemory>
    requires { IsSetOf (predecessors labels.now label) parents.now }
    ensures { IfOk result (λ fits. fits ≡ phi_fits_in (contains nat_cmp pointers.now) labels.now label kind pairs.now) }
{
    if labels.is_first(label) || pointers.contains(&kind) {
        return Ok(false);
    }
    names_each_once(alloc, parents, pairs)
}

/// Whether it is an OpPhi.
fn is_phi(inst: &Ins) -> bool
    ensures { result ≡ is_phi_in (seen_ins inst.now) }
{
    match inst {
        Ins::Phi { .. } => true,
        Ins::Selection { .. } | Ins::Loop { .. } | Ins::Other { .. } => false,
    }
}

/// Whether an instruction or one before it is no OpPhi.
fn is_late(late: bool, inst: &Ins) -> bool
    ensures { result ≡ (late || not (is_phi_in (seen_ins inst.now))) }
{
    late || !is_phi(inst)
}

/// The first rule that an instruction of a block breaks as an OpPhi; it may stand behind another instruction.
fn phi_fault_of(
    alloc: Global,
    labels: &Labels,
    parents: &BTreeSet<u32>,
    pointers: &BTreeSet<u32>,
    label: u32,
    late: bool,
    inst: &Ins,
) -> Result<Option<Refusal>, NoMemory>
    requires { IsSetOf (predecessors labels.now label) parents.now }
    ensures { IfOk result (λ fault. fault ≡ first (phi_faults_of (contains nat_cmp pointers.now) labels.now label late (seen_ins inst.now))) }
{
    match inst {
        Ins::Phi {
            at,
            kind,
            pairs,
            ..
        } => {
            let fits = !late && phi_fits(alloc, labels, parents, pointers, label, *kind, pairs)?;
            Ok(fault_at(*at, rule_unless(fits, rule::BAD_PHI)))
        }
        Ins::Selection { .. } | Ins::Loop { .. } | Ins::Other { .. } => Ok(None),
    }
}

/// The first rule that a block breaks by its OpPhi, 406. `parents` are the labels of the blocks that branch to it, and
/// `pointers` the types that are pointers. It takes time in proportion to the pairs of its OpPhi, but for looking up
/// their parents.
pub fn phi_fault(
    alloc: Global,
    labels: &Labels,
    parents: &BTreeSet<u32>,
    pointers: &BTreeSet<u32>,
    label: u32,
    block: &Block,
) -> Result<Option<Refusal>, NoMemory>
    requires { IsSetOf (predecessors labels.now label) parents.now }
    ensures { IfOk result (λ fault. fault ≡ first (phi_faults (contains nat_cmp pointers.now) labels.now label (seen_block block.now).body)) }
{
    let mut found = None;
    let mut late = false;
    let body = block.body.as_slice();
    'instructions: for inst in body {
        let fault = phi_fault_of(alloc, labels, parents, pointers, label, late, inst)?;
        found = earlier(found, fault);
        late = is_late(late, inst);
    }
    Ok(found)
}

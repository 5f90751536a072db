// The OpPhi of a block.
ghost use Rattle.std.specs.Prelude.{◌≡◌, ℕ, ◌<◌, ◌≤◌, ◌==◌, ◌++◌, ◌∷◌, [], cond, drop, length, map, All, IfOk, OnOk};
ghost use Rattle.spv_blocks.specs.Blocks.{seconds};
ghost use Rattle.spv_blocks.specs.Cutting.{pairs, word};
ghost use Rattle.spv_bodies.specs.Bodies.{Body as Plain};
ghost use Rattle.spv_module.specs.View.{seen};
ghost use Rattle.spv_spelling.specs.Text.{copies as copies_in, copy_of as copy_in, parameter_of as parameter_in};
ghost use Rattle.spv_tree.specs.Tree.{items_then, parameter_of, words_of};
ghost use Rattle.spv_sources.specs.Pairs.{incoming as incoming_in};
ghost use Rattle.spv_sources.specs.Source.{label_in};
ghost use Rattle.spv_sources.specs.Tail.{phi_insts};
ghost use Rattle.spv_sources.specs.Values.{group, shown, taken_from, values_of};

use crate::pairing::{Incoming, incoming_of};
use crate::phi::Phi;
use crate::reading::id_at;
use crate::unmarked::Unmarked;
use spv_base::{Id, NoMemory};
use spv_module::Inst;
use spv_opcodes::op;
use spv_tree::{Item, Parameter};
use sqlite_items::Items;
use std::alloc::Global;
use std::collections::BTreeMap;

/// The OpPhi from an instruction on, up to the first that is none.
pub(crate) fn phis_from<'a>(
    alloc: Global,
    insts: &Unmarked<'a>,
    start: usize,
) -> Result<Vec<Phi<'a>>, NoMemory>
    requires { start ≤ length insts.now }
    ensures { IfOk result (λ phis. shown phis.items ≡ phi_insts (drop start insts.now)) }
{
    let mut phis = Vec::new(alloc);
    'phis: for k in start..insts.count() {
        let Some(phi) = Phi::of(insts.at(k)) else {
            return Ok(phis);
        };
        phis.push(phi)?;
    }
    Ok(phis)
}

/// Adds a value to those of its block.
fn add_value(
    alloc: Global,
    values: &mut BTreeMap<u32, Items<Id>>,
    incoming: Incoming,
) -> Result<(), NoMemory>
    ensures { OnOk result ((block : ℕ) → group values.new block ≡ group values.old block ++ cond (incoming.block == block) (incoming.value ∷ []) []) }
{
    let group = values
        .entry(incoming.block.number())?
        .or_insert(Items::new(alloc));
    group.push(incoming.value)?;
    Ok(())
}

/// Adds the values of pairs.
fn add_values(
    alloc: Global,
    values: &mut BTreeMap<u32, Items<Id>>,
    pairs: &[Incoming],
) -> Result<(), NoMemory>
    ensures { OnOk result ((block : ℕ) → group values.new block ≡ group values.old block ++ values_of block (map incoming_in pairs.now)) }
{
    'pairs: for pair in pairs {
        add_value(alloc, values, *pair)?;
    }
    Ok(())
}

/// Adds the values of an OpPhi.
fn add_phi(alloc: Global, values: &mut BTreeMap<u32, Items<Id>>, phi: &Phi) -> Result<(), NoMemory>
    ensures { OnOk result ((block : ℕ) → group values.new block ≡ group values.old block ++ taken_from block (seen phi.now.inst ∷ [])) }
{
    let pairs = incoming_of(alloc, &phi.inst)?;
    add_values(alloc, values, &pairs)
}

/// What OpPhi take, by the block that it comes from.
pub(crate) fn values_in(alloc: Global, phis: &[Phi]) -> Result<BTreeMap<u32, Items<Id>>, NoMemory>
    ensures { IfOk result (λ values. (block : ℕ) → group values block ≡ taken_from block (shown phis.now)) }
{
    let mut values = BTreeMap::new(alloc);
    'phis: for phi in phis {
        add_phi(alloc, &mut values, phi)?;
    }
    Ok(values)
}

/// The label that stays for a block.
pub(crate) fn stay(stays: &BTreeMap<u32, Id>, label: Id) -> Id
    ensures { result ≡ label_in stays.now.entries label }
{
    match stays.get(&label.number()) {
        Some(first) => *first,
        None => label,
    }
}

/// The labels that stay for the blocks of pairs.
fn parents_of(
    alloc: Global,
    stays: &BTreeMap<u32, Id>,
    pairs: &[Incoming],
) -> Result<Items<Id>, NoMemory>
    ensures { IfOk result (λ parents. parents ≡ map (label_in stays.now.entries) (seconds (map incoming_in pairs.now))) }
{
    let mut parents = Items::new(alloc);
    'pairs: for pair in pairs {
        parents.push(stay(stays, pair.block))?;
    }
    Ok(parents)
}

/// An OpPhi as a parameter.
fn parameter(alloc: Global, stays: &BTreeMap<u32, Id>, phi: &Phi) -> Result<Parameter, NoMemory>
    ensures { IfOk result (λ made. parameter_of made ≡ parameter_in (label_in stays.now.entries) (seen phi.now.inst).words) }
{
    let pairs = incoming_of(alloc, &phi.inst)?;
    Ok(Parameter {
        type_id: id_at(&phi.inst, 1),
        result_id: id_at(&phi.inst, 2),
        parents: parents_of(alloc, stays, &pairs)?,
    })
}

/// OpPhi as parameters.
pub(crate) fn parameters_of(
    alloc: Global,
    stays: &BTreeMap<u32, Id>,
    phis: &[Phi],
) -> Result<Items<Parameter>, NoMemory>
    ensures { IfOk result (λ made. map parameter_of made ≡ map (parameter_in (label_in stays.now.entries)) (words_of (shown phis.now))) }
{
    let mut made = Items::new(alloc);
    'phis: for phi in phis {
        made.push(parameter(alloc, stays, phi)?)?;
    }
    Ok(made)
}

/// An OpCopyObject of the value that an OpPhi with one pair takes.
fn copy_of(alloc: Global, phi: &Phi) -> Result<Inst, NoMemory>
    requires { 0 < word (seen phi.now.inst) 3 }
    ensures { IfOk result (λ made. made.words ≡ copy_in (seen phi.now.inst).words) }
{
    let value_type = id_at(&phi.inst, 1);
    let result_id = id_at(&phi.inst, 2);
    let value = id_at(&phi.inst, 3);
    Inst::new(
        alloc,
        &[
            4 * 0x1_0000 + u32::from(op::COPY_OBJECT),
            value_type.number(),
            result_id.number(),
            value.number(),
        ],
    )
}

/// Adds an OpCopyObject for each OpPhi, which has one pair.
pub(crate) fn push_copies(
    alloc: Global,
    phis: &[Phi],
    items: &mut Vec<Item>,
) -> Result<(), NoMemory>
    requires { All (λ i. 0 < word i 3) (shown phis.now) }
    ensures { OnOk result ((rest : Plain) → items_then items.new.items rest ≡ items_then items.old.items (copies_in (words_of (shown phis.now)) rest)) }
{
    'phis: for phi in phis {
        items.push(Item::Op(copy_of(alloc, phi)?))?;
    }
    Ok(())
}

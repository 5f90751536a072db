ghost use Rattle.std.specs.Prelude.{◌≡◌, ℕ, cond, ◌==◌, Some, None, OnOk, IfOk, slice_index};
ghost use Rattle.std.specs.BTreeMap.{get};
ghost use Rattle.std.specs.Option.{option_map, option_or};
ghost use Rattle.std.specs.Ordering.{nat_cmp};
ghost use Rattle.spv_module.specs.View.{seen};
ghost use Rattle.spv_composites.specs.Forms.{Array, Struct, NoPart, form_at, form_of, length_at, parts_behind};
ghost use Rattle.spv_composites.specs.Numbering.{AddsForm, AddsNode, AreNumbered, Grows, Numbers, NumbersParts, TellsMatches, node_at};
ghost use Rattle.spv_composites.specs.Numbering.{array_node as array_node_in};

use crate::lengths::known_length;
use spv_ids::{word, words_from};
use spv_module::{NoMemory, View};
use spv_opcodes::op;
use spv_types::Tables;
use std::alloc::Global;
use std::collections::BTreeMap;

/// A scalar or a vector, by its id.
const PLAIN: u32 = 0;

/// An array, by its length and the number of its elements' form.
const ARRAY: u32 = 1;

/// An array, by the id of its length and the number of its elements' form.
const ARRAY_OF_CONSTANT: u32 = 2;

/// A struct, by the number of its members.
const STRUCT: u32 = 3;

/// Members, by the number of those in front, 0 for none, and that of the last one's form.
const MEMBERS: u32 = 4;

/// Numbers of nodes, from 1 on.
#[derive(Debug, Drop)]
pub struct Nodes {
    numbers: BTreeMap<(u32, u32, u32), u32>,
    /// The number of the next node that has none.
    next: u32,
}

impl Nodes {
    /// No nodes.
    fn new(alloc: Global) -> Nodes
        ensures { AreNumbered result }
    {
        Nodes {
            numbers: BTreeMap::new(alloc),
            next: 1,
        }
    }

    /// Gives a node the next number.
    fn add(&mut self, node: (u32, u32, u32)) -> Result<u32, NoMemory>
        ensures { IfOk result (λ n. AddsNode self.old self.new node n) }
    {
        let number = self.next;
        if number == u32::MAX {
            return Err(NoMemory);
        }
        self.numbers.insert(node, number).map_err(|_| NoMemory)?;
        self.next = number + 1;
        Ok(number)
    }

    /// The number of a node, the next one where it has none.
    fn number(&mut self, node: (u32, u32, u32)) -> Result<u32, NoMemory>
        ensures grows { OnOk result (AreNumbered self.old → Grows self.old self.new) }
        ensures at { IfOk result (λ n. node_at self.new node ≡ Some n) }
    {
        match self.numbers.get(&node).copied() {
            Some(number) => Ok(number),
            None => self.add(node),
        }
    }
}

/// The number of a struct's members. None where one of them has no form.
fn number_of_members(
    nodes: &mut Nodes,
    numbers: &BTreeMap<u32, u32>,
    types: &[u32],
) -> Result<Option<u32>, NoMemory>
    ensures { IfOk result (λ n. NumbersParts nodes.old nodes.new numbers.now n (λ table. parts_behind table NoPart types.now)) }
{
    let mut members = 0;
    'members: for t in types {
        let Some(member) = numbers.get(t) else {
            return Ok(None);
        };
        members = nodes.number((MEMBERS, members, *member))?;
    }
    Ok(Some(members))
}

/// The number of the form of structs. None where a member has no form.
fn number_of_struct(
    nodes: &mut Nodes,
    numbers: &BTreeMap<u32, u32>,
    types: &[u32],
) -> Result<Option<u32>, NoMemory>
    ensures { IfOk result (λ n. Numbers nodes.old nodes.new numbers.now n (λ table. option_map Struct (parts_behind table NoPart types.now))) }
{
    match number_of_members(nodes, numbers, types)? {
        Some(members) => Ok(Some(nodes.number((STRUCT, members, 0))?)),
        None => Ok(None),
    }
}

/// The node of arrays of this length.
fn array_node(tables: &Tables, length: u32, element: u32) -> (u32, u32, u32)
    ensures { result ≡ array_node_in (length_at tables.now length) element }
{
    match known_length(tables, length) {
        Some(n) => (ARRAY, n, element),
        None => (ARRAY_OF_CONSTANT, length, element),
    }
}

/// The number of the form of arrays. None where their elements have no form.
fn number_of_array(
    tables: &Tables,
    nodes: &mut Nodes,
    numbers: &BTreeMap<u32, u32>,
    element: u32,
    length: u32,
) -> Result<Option<u32>, NoMemory>
    ensures { IfOk result (λ n. Numbers nodes.old nodes.new numbers.now n (λ table. option_map (Array (length_at tables.now length)) (form_at table element))) }
{
    match numbers.get(&element) {
        Some(element) => {
            let node = array_node(tables, length, *element);
            Ok(Some(nodes.number(node)?))
        }
        None => Ok(None),
    }
}

/// The number of the form of the type that an instruction declares. None where it declares no type that has a form.
fn number_of_type(
    tables: &Tables,
    nodes: &mut Nodes,
    numbers: &BTreeMap<u32, u32>,
    inst: &View,
) -> Result<Option<u32>, NoMemory>
    ensures { IfOk result (λ n. Numbers nodes.old nodes.new numbers.now n (λ table. form_of tables.now table (seen inst.now))) }
{
    match inst.opcode() {
        op::TYPE_BOOL | op::TYPE_INT | op::TYPE_VECTOR => {
            Ok(Some(nodes.number((PLAIN, word(inst, 1), 0))?))
        }
        op::TYPE_ARRAY => number_of_array(tables, nodes, numbers, word(inst, 2), word(inst, 3)),
        op::TYPE_STRUCT => number_of_struct(nodes, numbers, words_from(inst, 2)),
        _ => Ok(None),
    }
}

/// Gives a type the number of its form, unless it has one.
fn put(numbers: &mut BTreeMap<u32, u32>, t: u32, number: u32) -> Result<(), NoMemory>
    ensures { OnOk result ((u : ℕ) → get nat_cmp numbers.new u ≡ option_or (get nat_cmp numbers.old u) (cond (t == u) (Some number) None)) }
{
    if !numbers.contains_key(&t) {
        numbers.insert(t, number).map_err(|_| NoMemory)?;
    }
    Ok(())
}

/// Adds the type that an instruction declares.
fn add_type(
    tables: &Tables,
    nodes: &mut Nodes,
    numbers: &mut BTreeMap<u32, u32>,
    inst: &View,
) -> Result<(), NoMemory>
    ensures { OnOk result (AddsForm nodes.old nodes.new numbers.old numbers.new (slice_index (seen inst.now).words 1) (λ table. form_of tables.now table (seen inst.now))) }
{
    match number_of_type(tables, nodes, numbers, inst)? {
        Some(number) => put(numbers, word(inst, 1), number),
        None => Ok(()),
    }
}

/// A number for the form of each type that has one, by the type's id. Types match where their numbers are the same. It
/// takes time in proportion to the module's words, but for looking up numbers.
pub fn numbers_of(alloc: Global, tables: &Tables) -> Result<BTreeMap<u32, u32>, NoMemory>
    ensures { IfOk result (λ numbers. TellsMatches numbers tables.now) }
{
    let insts = tables.kinds().definitions().insts();
    let mut nodes = Nodes::new(alloc);
    let mut numbers = BTreeMap::new(alloc);
    'instructions: for k in 0..insts.count() {
        add_type(tables, &mut nodes, &mut numbers, &insts.at(k as usize))?;
    }
    Ok(numbers)
}

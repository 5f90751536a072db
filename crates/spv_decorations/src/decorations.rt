ghost use Rattle.std.specs.Prelude.{◌≡◌, OnOk, IfOk};
ghost use Rattle.spv_module.specs.View.{seen};
ghost use Rattle.spv_decorations.specs.Index.{HasTargets, HasMembers, AddsTarget, AddsMember};

use indexmap::IndexMap;
use spv_ids::word;
use spv_module::{InstList, NoMemory, View};
use spv_opcodes::op;
use spv_seed::Seed;
use std::alloc::Global;
use std::marker::Model;

/// The first literal of each decoration, 0 where it has none, by the target and the decoration.
type Targets = IndexMap<(u32, u32), u32, Seed>;

/// The same of members, by the struct, the member and the decoration.
type Members = IndexMap<(u32, u32, u32), u32, Seed>;

/// The decorations of a module in order of appearance. Of two of one kind on one target the first counts.
#[derive(Debug, Drop)]
pub struct Decorations<'a> {
    insts: &'a InstList,
    /// The seed of the tables.
    seed: Seed,
    targets: Targets,
    members: Members,
}

impl<'a> Model for Decorations<'a> {
    ghost use Rattle.std.specs.Prelude.{List};
    ghost use Rattle.spv_module.specs.Instruction.{Instruction};
    ghost use Rattle.spv_decorations.specs.Index.{HasTargets, HasMembers};

    ghost Value = { List Instruction };

    ghost view = { λ decorations. decorations.insts.now };

    ghost invariant = { λ decorations. HasTargets decorations.targets decorations.insts.now × HasMembers decorations.members decorations.insts.now };
}

/// Adds what OpDecorate says of its target, unless that is there.
fn add_target(targets: &mut Targets, inst: &View) -> Result<(), NoMemory>
    ensures { OnOk result (AddsTarget targets.old targets.new (seen inst.now)) }
{
    if inst.opcode() != op::DECORATE {
        return Ok(());
    }
    let key = (word(inst, 1), word(inst, 2));
    if !targets.contains_key(&key) {
        targets.insert(key, word(inst, 3)).map_err(|_| NoMemory)?;
    }
    Ok(())
}

/// Adds what OpMemberDecorate says of a member, unless that is there.
fn add_member(members: &mut Members, inst: &View) -> Result<(), NoMemory>
    ensures { OnOk result (AddsMember members.old members.new (seen inst.now)) }
{
    if inst.opcode() != op::MEMBER_DECORATE {
        return Ok(());
    }
    let key = (word(inst, 1), word(inst, 2), word(inst, 3));
    if !members.contains_key(&key) {
        members.insert(key, word(inst, 4)).map_err(|_| NoMemory)?;
    }
    Ok(())
}

fn targets_of(alloc: Global, seed: Seed, insts: &InstList) -> Result<Targets, NoMemory>
    ensures { IfOk result (λ targets. HasTargets targets insts.now) }
{
    let mut targets = IndexMap::with_hasher(alloc, seed);
    'instructions: for k in 0..insts.count() {
        add_target(&mut targets, &insts.at(k))?;
    }
    Ok(targets)
}

fn members_of(alloc: Global, seed: Seed, insts: &InstList) -> Result<Members, NoMemory>
    ensures { IfOk result (λ members. HasMembers members insts.now) }
{
    let mut members = IndexMap::with_hasher(alloc, seed);
    'instructions: for k in 0..insts.count() {
        add_member(&mut members, &insts.at(k))?;
    }
    Ok(members)
}

impl<'a> Decorations<'a> {
    ghost use Rattle.spv_decorations.specs.Decorations.{decoration_of, member_decoration_of, has_decoration, has_member_decoration};

    /// The decorations of a module.
    pub fn of(alloc: Global, insts: &'a InstList) -> Result<Decorations<'a>, NoMemory>
        ensures { IfOk result (λ decorations. decorations ≡ insts.now) }
    {
        let seed = Seed::of(insts);
        Ok(Decorations {
            insts,
            seed,
            targets: targets_of(alloc, seed, insts)?,
            members: members_of(alloc, seed, insts)?,
        })
    }

    /// The module's instructions.
    pub fn insts(&self) -> &'a InstList
        ensures { result.now ≡ self.now }
    {
        self.insts
    }

    /// The seed of the module's tables.
    pub fn seed(&self) -> Seed {
        self.seed
    }

    /// The first literal of a decoration of an id by OpDecorate, 0 where it has none; None where the id does not
    /// have the decoration.
    pub fn literal(&self, id: u32, decoration: u32) -> Option<u32>
        ensures { result ≡ decoration_of self.now id decoration }
    {
        self.targets.get(&(id, decoration)).copied()
    }

    /// The first literal of a decoration of a struct's member, counted from 0, by OpMemberDecorate, 0 where it has
    /// none; None where the member does not have the decoration.
    pub fn member_literal(&self, id: u32, member: u32, decoration: u32) -> Option<u32>
        ensures { result ≡ member_decoration_of self.now id member decoration }
    {
        self.members.get(&(id, member, decoration)).copied()
    }

    /// Whether an id has a decoration by OpDecorate.
    pub fn has(&self, id: u32, decoration: u32) -> bool
        ensures { result ≡ has_decoration self.now id decoration }
    {
        self.literal(id, decoration).is_some()
    }

    /// Whether a struct's member, counted from 0, has a decoration by OpMemberDecorate.
    pub fn has_member(&self, id: u32, member: u32, decoration: u32) -> bool
        ensures { result ≡ has_member_decoration self.now id member decoration }
    {
        self.member_literal(id, member, decoration).is_some()
    }
}

ghost use Rattle.std.specs.Prelude.{◌≡◌, cond, ◌∷◌, [], OnOk};
ghost use Rattle.spv_module.specs.View.{seen};
ghost use Rattle.spv_grammar.specs.Roles.{is_used_id, names_id};
ghost use Rattle.spv_draft.specs.Named.{words_with, used_by, is_annotation as annotates};
ghost use Rattle.spv_draft.specs.Tallies.{Adds};

use spv_base::NoMemory;
use spv_module::View;
use spv_opcodes::op;
use std::alloc::Global;
use std::collections::BTreeMap;

/// How often each id stands in a list that grows.
#[derive(Debug, Drop)]
pub struct Tally {
    counts: BTreeMap<u32, u32>,
}

impl Tally {
    ghost use Rattle.std.specs.Prelude.{◌≡◌, ℕ, ◌∷◌, [], OnOk};
    ghost use Rattle.spv_draft.specs.Tallies.{tallied, Adds};

    /// The tally of no id.
    pub fn new(alloc: Global) -> Tally
        ensures { (id : ℕ) → tallied result id ≡ 0 }
    {
        Tally {
            counts: BTreeMap::new(alloc),
        }
    }

    /// How often an id stands in the list.
    pub fn of(&self, id: u32) -> u32
        ensures { result ≡ tallied self.now id }
    {
        self.counts.get(&id).copied().unwrap_or(0)
    }

    /// Counts an id once more.
    pub fn add(&mut self, id: u32) -> Result<(), NoMemory>
        ensures { OnOk result (Adds self.old self.new (id ∷ [])) }
    {
        let count = self.of(id).checked_add(1).ok_or(NoMemory)?;
        self.counts.insert(id, count).map_err(|_| NoMemory)?;
        Ok(())
    }
}

/// Counts an id once more, if it counts.
fn add_if(tally: &mut Tally, counts: bool, id: u32) -> Result<(), NoMemory>
    ensures { OnOk result (Adds tally.old tally.new (cond counts (id ∷ []) [])) }
{
    if counts { tally.add(id) } else { Ok(()) }
}

/// Counts the ids that an instruction names.
pub fn add_named(tally: &mut Tally, inst: &View) -> Result<(), NoMemory>
    ensures { OnOk result (Adds tally.old tally.new (words_with names_id (seen inst.now))) }
{
    let roles = inst.roles();
    'words: for k in 0..inst.words.len() {
        add_if(tally, roles[k].names_id(), inst.words[k])?;
    }
    Ok(())
}

/// Counts the ids of an instruction's operands.
fn add_operands(tally: &mut Tally, inst: &View) -> Result<(), NoMemory>
    ensures { OnOk result (Adds tally.old tally.new (words_with is_used_id (seen inst.now))) }
{
    let roles = inst.roles();
    'words: for k in 0..inst.words.len() {
        add_if(tally, roles[k].is_used_id(), inst.words[k])?;
    }
    Ok(())
}

/// Whether an instruction is a name or a decoration.
pub fn is_annotation(inst: &View) -> bool
    ensures { result ≡ annotates (seen inst.now) }
{
    matches!(
        inst.opcode(),
        op::NAME | op::MEMBER_NAME | op::DECORATE | op::MEMBER_DECORATE
    )
}

/// Counts the ids that an instruction uses, names and decorations aside.
pub fn add_used(tally: &mut Tally, inst: &View) -> Result<(), NoMemory>
    ensures { OnOk result (Adds tally.old tally.new (used_by (seen inst.now))) }
{
    if is_annotation(inst) {
        return Ok(());
    }
    add_operands(tally, inst)
}

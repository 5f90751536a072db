ghost use Rattle.std.specs.Prelude.{◌≡◌, ◌||◌, ℕ};
ghost use Rattle.spv_declarations.specs.Broken.{group_3};
ghost use Rattle.spv_declarations.specs.Sound.{AreInstructions};
ghost use Rattle.spv_module.specs.First.{first};
ghost use Rattle.spv_module.specs.Code.{is_function};
ghost use Rattle.spv_module.specs.View.{seen};
ghost use Rattle.spv_types.specs.Entries.{IsReading, Reads};
ghost use Rattle.spv_types.specs.Whole.{Finds, HasMeanings, Rises};

use crate::keeping::{keep, refused};
use crate::lookup::Tables;
use crate::meanings::Meanings;
use crate::rules::{Standing, early_rule};
use indexmap::IndexMap;
use spv_base::Fault;
use spv_decorations::Decorations;
use spv_module::layout::is_line;
use spv_module::{Flat, View};
use spv_opcodes::op;
use spv_repeats::{repeated_decorations, repeated_types};
use spv_typing::Kinds;
use std::alloc::Global;

/// Reads one instruction more: refuses the first rule that it breaks, or keeps what it declares.
fn read(
    alloc: Global,
    kinds: &Kinds,
    decorations: &Decorations,
    meanings: &mut Meanings,
    standing: Standing,
    inst: &View,
) -> Result<(), Fault>
    requires same { decorations.now ≡ kinds.now }
    ensures { (k : ℕ) → IsReading kinds.now k (seen inst.now) standing meanings.old.entries → Reads kinds.now k (seen inst.now) meanings.new.entries result }
{
    if is_line(inst) {
        return Ok(());
    }
    if let Some(rule) = early_rule(kinds, decorations, meanings, standing, inst) {
        return Err(refused(rule, inst));
    }
    if standing.begun {
        return Ok(());
    }
    keep(alloc, kinds, decorations, meanings, inst)
}

/// Whether a function has begun behind the instruction.
fn has_begun(begun: bool, inst: &View) -> bool
    ensures { result ≡ (begun || is_function (seen inst.now)) }
{
    begun || inst.opcode() == op::FUNCTION
}

/// What is kept of all ids outside functions, or the first broken rule.
fn meanings_of(
    alloc: Global,
    flat: &Flat,
    kinds: &Kinds,
    decorations: &Decorations,
) -> Result<Meanings, Fault>
    requires kinds { kinds.now ≡ flat.now.insts }
    requires decorations { decorations.now ≡ flat.now.insts }
    requires instructions { AreInstructions flat.now.insts }
    requires rises { Rises flat.now.insts }
    ensures { Finds (first (group_3 flat.now.insts)) (λ meanings. HasMeanings flat.now.insts flat.now.insts meanings.entries) result }
{
    let insts = flat.insts();
    let types = repeated_types(alloc, insts)?;
    let repeats = repeated_decorations(alloc, insts)?;
    let mut meanings = IndexMap::with_hasher(alloc, decorations.seed());
    let mut begun = false;
    'instructions: for k in 0..flat.count() {
        let inst = flat.at(k);
        let standing = Standing {
            number: k,
            begun,
            occurs: types.has(k),
            repeats: repeats.has(k),
        };
        read(alloc, kinds, decorations, &mut meanings, standing, &inst)?;
        begun = has_begun(begun, &inst);
    }
    Ok(meanings)
}

/// The tables of a module, or the first rule that it breaks of those on ids, types, constants, decorations and global
/// variables: 301 to 309, at the first word of the instruction that breaks it, in words from the module's start. It never
/// answers Nesting. The places of the instructions rise from 5 on.
pub fn tables<'a>(alloc: Global, flat: &'a Flat) -> Result<Tables<'a>, Fault>
    requires { Rises flat.now.insts }
    ensures { Finds (first (group_3 flat.now.insts)) (λ tables. tables ≡ flat.now.insts) result }
{
    flat.insts().each_is_instruction();
    let kinds = Kinds::of(alloc, flat)?;
    let decorations = Decorations::of(alloc, flat.insts())?;
    let meanings = meanings_of(alloc, flat, &kinds, &decorations)?;
    Ok(Tables {
        kinds,
        decorations,
        meanings,
    })
}

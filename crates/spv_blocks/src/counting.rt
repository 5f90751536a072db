// How often the merge instructions of a function name its labels.
ghost use Rattle.std.specs.Prelude.{◌≡◌, ◌∷◌, [], map, IfOk, OnOk};
ghost use Rattle.spv_blocks.specs.Blocks.{times, roles, names_in};
ghost use Rattle.spv_blocks.specs.Places.{counted, HasNames, AddsNames};
ghost use Rattle.spv_blocks.specs.Seen.{seen_ins};

use crate::block::Ins;
use crate::function::Function;
use crate::table::Table;
use spv_base::NoMemory;
use std::alloc::Global;

/// What is counted of a label.
pub(crate) fn count_of(counts: &Table, label: u32) -> usize
    ensures { result ≡ counted counts.now label }
{
    counts.get(label).unwrap_or(0)
}

/// Counts a label once more.
fn add_name(counts: &mut Table, label: u32) -> Result<(), NoMemory>
    ensures { OnOk result (AddsNames counts.old counts.new (times (label ∷ []))) }
{
    let more = match count_of(counts, label) {
        0 => 1,
        _ => 2,
    };
    counts.put(label, more)
}

/// Counts each of two labels once more.
fn add_both(counts: &mut Table, one: u32, other: u32) -> Result<(), NoMemory>
    ensures { OnOk result (AddsNames counts.old counts.new (times (one ∷ other ∷ []))) }
{
    add_name(counts, one)?;
    add_name(counts, other)?;
    Ok(())
}

/// Counts the labels that an instruction names as a merge block or continue target.
fn add_names(counts: &mut Table, inst: &Ins) -> Result<(), NoMemory>
    ensures { OnOk result (AddsNames counts.old counts.new (times (roles (seen_ins inst.now)))) }
{
    match inst {
        Ins::Selection { merge, .. } => add_name(counts, *merge),
        Ins::Loop { merge, next, .. } => add_both(counts, *merge, *next),
        Ins::Phi { .. } | Ins::Other { .. } => Ok(()),
    }
}

/// Counts the labels that the instructions of a block name.
fn add_names_of(counts: &mut Table, body: &[Ins]) -> Result<(), NoMemory>
    ensures { OnOk result (AddsNames counts.old counts.new (names_in (map seen_ins body.now))) }
{
    'instructions: for inst in body {
        add_names(counts, inst)?;
    }
    Ok(())
}

/// How often the merge instructions of a function name each label, up to two.
pub(crate) fn counts_of(alloc: Global, function: &Function) -> Result<Table, NoMemory>
    ensures { IfOk result (λ counts. HasNames counts function.now) }
{
    let mut counts = Table::over(alloc, function)?;
    'each: for k in 0..function.count() {
        add_names_of(&mut counts, &function.block(k).body)?;
    }
    Ok(counts)
}

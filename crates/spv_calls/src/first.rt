ghost use Rattle.std.specs.Prelude.{◌≡◌, IfOk, OnOk, Some, length, slice_get};
ghost use Rattle.spv_module.specs.First.{first, least};
ghost use Rattle.spv_module.specs.View.{seen};
ghost use Rattle.spv_calls.specs.Broken.{Tests, AreTests, Rises, rules_at, group_6};
ghost use Rattle.spv_calls.specs.Kept.{IsFresh};

use crate::calls::Calls;
use crate::rule;
use crate::search::Search;
use spv_base::Refusal;
use spv_entries::Entries;
use spv_module::{NoMemory, View};
use std::alloc::Global;

/// The least rule that the k-th instruction breaks.
fn broken_rule(
    alloc: Global,
    calls: &Calls,
    entries: &Entries,
    search: &mut Search,
    k: usize,
    inst: &View,
) -> Result<Option<u16>, NoMemory>
    requires same { entries.now ≡ calls.now }
    requires at { slice_get calls.now k ≡ Some (seen inst.now) }
    requires fresh { IsFresh (length calls.now) search.old }
    ensures fresh { OnOk result (IsFresh (length calls.now) search.new) }
    ensures rule { IfOk result (λ rule. (tests : Tests) → AreTests calls.now tests → rule ≡ least (rules_at tests calls.now k (seen inst.now))) }
{
    if !calls.calls_fit(alloc, k, inst)? {
        return Ok(Some(rule::CALL_CYCLE));
    }
    if !calls.interface_fits(alloc, search, inst)? {
        return Ok(Some(rule::INTERFACE));
    }
    Ok(entries.broken_rule(k, inst))
}

/// The first rule from 601 to 606 that a module breaks, at the first word of the instruction that breaks it, in words
/// from the module's start. The places of the instructions rise from 5 on.
pub fn first_broken(
    alloc: Global,
    calls: &Calls,
    entries: &Entries,
) -> Result<Option<Refusal>, NoMemory>
    requires same { entries.now ≡ calls.now }
    requires rises { Rises calls.now }
    ensures { IfOk result (λ broken. (tests : Tests) → AreTests calls.now tests → broken ≡ first (group_6 tests calls.now)) }
{
    let insts = calls.insts();
    let mut search = calls.search(alloc)?;
    'instructions: for k in 0..insts.count() {
        let inst = insts.at(k);
        match broken_rule(alloc, calls, entries, &mut search, k, &inst)? {
            Some(rule) => {
                return Ok(Some(Refusal {
                    rule,
                    at: inst.offset,
                }));
            }
            None => {}
        }
    }
    Ok(None)
}

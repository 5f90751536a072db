ghost use Rattle.std.specs.Prelude.{◌≡◌, IfOk};
ghost use Rattle.std.specs.BTreeSet.{contains};
ghost use Rattle.std.specs.List.{list_all};
ghost use Rattle.std.specs.Ordering.{nat_cmp};
ghost use Rattle.spv_module.specs.View.{seen};
ghost use Rattle.spv_calls.specs.Interfaces.{interface as interface_in};
ghost use Rattle.spv_calls.specs.Kept.{IsListing};

use crate::globals::Globals;
use crate::keys::add;
use spv_grammar::text::text_words;
use spv_ids::words_from;
use spv_module::{NoMemory, View};
use std::alloc::Global;
use std::collections::BTreeSet;

/// The ids behind an entry point's name.
pub fn interface<'a>(inst: &View<'a>) -> &'a [u32]
    ensures { result.now ≡ interface_in (seen inst.now) }
{
    let words = words_from(inst, 3);
    &words[text_words(words)..]
}

/// The set of these ids. None where one is no global variable or stands twice.
pub fn listed(
    alloc: Global,
    globals: &Globals,
    ids: &[u32],
) -> Result<Option<BTreeSet<u32>>, NoMemory>
    ensures { IfOk result (λ listed. IsListing globals.now ids.now listed) }
{
    let mut listed = BTreeSet::new(alloc);
    'ids: for id in ids {
        if !globals.has(*id) {
            return Ok(None);
        }
        let known = add(&mut listed, Some(*id))?;
        if known {
            return Ok(None);
        }
    }
    Ok(Some(listed))
}

/// Whether all ids are in the set.
pub fn lists_all(listed: &BTreeSet<u32>, ids: &[u32]) -> bool
    ensures { result ≡ list_all (contains nat_cmp listed.now) ids.now }
{
    ids.iter().all(|id| listed.contains(id))
}

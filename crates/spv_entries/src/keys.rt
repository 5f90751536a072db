ghost use Rattle.std.specs.Prelude.{IfOk};
ghost use Rattle.spv_repeats.specs.Steps.{Adds};

use spv_module::NoMemory;
use std::collections::BTreeSet;

/// Adds a key to the set, if there is one. Whether it was there.
pub fn add<K: Ord + Drop>(set: &mut BTreeSet<K>, key: Option<K>) -> Result<bool, NoMemory>
    ensures { IfOk result (λ known. Adds K.cmp set.old set.new key known) }
{
    let Some(key) = key else {
        return Ok(false);
    };
    let is_new = set.insert(key).map_err(|_| NoMemory)?;
    Ok(!is_new)
}

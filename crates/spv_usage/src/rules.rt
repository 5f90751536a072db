ghost use Rattle.std.specs.Prelude.{◌≡◌, ℕ};
ghost use Rattle.spv_module.specs.First.{least};
ghost use Rattle.spv_module.specs.View.{seen};
ghost use Rattle.spv_usage.specs.Broken.{usage_rules};
ghost use Rattle.spv_usage.specs.Stages.{IsStage};

use crate::orderings::ordering_fits;
use crate::rule;
use crate::stages::Stage;
use crate::storage::storage_fits;
use spv_module::View;
use spv_types::Tables;

/// The least of the rules 504 and 505 that an instruction of the module breaks, at its stage.
pub fn broken_usage_rule(tables: &Tables, stage: Stage, inst: &View) -> Option<u16>
    ensures { (k : ℕ) → IsStage tables.now k stage → result ≡ least (usage_rules tables.now k (seen inst.now)) }
{
    if !storage_fits(tables.kinds(), stage, inst) {
        Some(rule::STORAGE_USE)
    } else if !ordering_fits(tables, inst) {
        Some(rule::SCOPE_OR_SEMANTICS)
    } else {
        None
    }
}

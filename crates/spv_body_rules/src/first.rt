ghost use Rattle.std.specs.Prelude.{◌≡◌, IfOk};
ghost use Rattle.spv_module.specs.First.{first};
ghost use Rattle.spv_types.specs.Whole.{Rises};
ghost use Rattle.spv_body_rules.specs.Broken.{rules_on_bodies};

use crate::rules::BodyRules;
use crate::standing::Standing;
use spv_base::Refusal;
use spv_module::NoMemory;
use spv_types::Tables;
use std::alloc::Global;

/// The first of the rules 501, 502 and 504 to 507 that a module with these tables breaks, at the first word of the
/// instruction that breaks it, in words from the module's start. The places of the instructions rise from 5 on.
pub fn first_broken<'a>(alloc: Global, tables: &'a Tables<'a>) -> Result<Option<Refusal>, NoMemory>
    requires { Rises tables.now }
    ensures { IfOk result (λ broken. broken ≡ first (rules_on_bodies tables.now)) }
{
    let rules = BodyRules::of(alloc, tables)?;
    let kinds = tables.kinds();
    let insts = kinds.definitions().insts();
    let mut standing = Standing::first();
    'instructions: for k in 0..insts.count() {
        let inst = insts.at(k);
        match rules.broken_rule(&standing, &inst) {
            Some(rule) => {
                return Ok(Some(Refusal {
                    rule,
                    at: inst.offset,
                }));
            }
            None => {}
        }
        standing.next(kinds, &inst);
    }
    Ok(None)
}

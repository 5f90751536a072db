ghost use Rattle.std.specs.Prelude.{◌≡◌, ◌<◌, ℕ, length, IfOk};
ghost use Rattle.spv_module.specs.First.{first, least};
ghost use Rattle.spv_module.specs.View.{seen};
ghost use Rattle.spv_types.specs.Whole.{Rises};
ghost use Rattle.spv_body_rules.specs.Broken.{refusals_from};
ghost use Rattle.spv_body_rules.specs.Standings.{IsStanding};
ghost use Rattle.spv_check.specs.Parts.{rules_of_one};

use crate::bodies::Bodies;
use spv_base::{NoMemory, Refusal};
use spv_body_rules::{BodyRules, Standing};
use spv_module::View;
use spv_types::Tables;
use std::alloc::Global;

/// The least of the rules 501, 502 and 504 to 507 that the k-th instruction breaks, where it is one of the function with this
/// number, counted from 1.
fn rule_in(
    rules: &BodyRules,
    bodies: &Bodies,
    standing: &Standing,
    number: u32,
    k: u32,
    inst: &View,
) -> Option<u16>
    requires within { k < length bodies.now }
    requires same { rules.now ≡ bodies.now }
    requires standing { IsStanding bodies.now k standing.now }
    ensures { result ≡ least (rules_of_one bodies.now number k (seen inst.now)) }
{
    if bodies.is_in(number, k) {
        rules.broken_rule(standing, inst)
    } else {
        None
    }
}

/// The first of the rules 501, 502 and 504 to 507 that an instruction breaks which is one of the function with this number,
/// counted from 1. The places of the instructions rise from 5 on.
pub(crate) fn first_listed<'a>(
    alloc: Global,
    tables: &'a Tables<'a>,
    bodies: &Bodies,
    number: u32,
) -> Result<Option<Refusal>, NoMemory>
    requires rises { Rises bodies.now }
    requires same { tables.now ≡ bodies.now }
    ensures { IfOk result (λ broken. broken ≡ first (refusals_from (rules_of_one bodies.now number) 0 bodies.now)) }
{
    let rules = BodyRules::of(alloc, tables)?;
    let kinds = tables.kinds();
    let flat = bodies.flat();
    let mut standing = Standing::first();
    'instructions: for k in 0..flat.count() {
        let inst = flat.at(k);
        match rule_in(&rules, bodies, &standing, number, k, &inst) {
            Some(rule) => {
                return Ok(Some(Refusal {
                    rule,
                    at: inst.offset,
                }));
            }
            None => {}
        }
        standing.next(kinds, &inst);
    }
    Ok(None)
}

ghost use Rattle.std.specs.Prelude.{◌≡◌, ℕ, IfOk};
ghost use Rattle.spv_module.specs.First.{least};
ghost use Rattle.spv_module.specs.View.{seen};
ghost use Rattle.spv_body_rules.specs.Broken.{body_rules, rules_in_functions};
ghost use Rattle.spv_body_rules.specs.Standings.{IsStanding};

use crate::least::lesser;
use crate::standing::Standing;
use spv_arithmetic::broken_arithmetic_rule;
use spv_composites::{Forms, broken_composite_rule};
use spv_module::{NoMemory, View};
use spv_signatures::{Signatures, broken_signature_rule};
use spv_types::Tables;
use spv_usage::broken_usage_rule;
use std::alloc::Global;
use std::marker::Model;

/// What the rules on the instructions of functions ask of a module. It borrows the module's tables.
#[derive(Debug, Drop)]
pub struct BodyRules<'a> {
    forms: Forms<'a>,
    signatures: Signatures<'a, 'a>,
}

impl<'a> Model for BodyRules<'a> {
    ghost use Rattle.std.specs.Prelude.{List, ◌≡◌};
    ghost use Rattle.spv_module.specs.Instruction.{Instruction};

    ghost Value = { List Instruction };

    ghost view = { λ rules. rules.signatures };

    ghost invariant = { λ rules. rules.forms ≡ rules.signatures };
}

impl<'a> BodyRules<'a> {
    /// What the rules ask of the module with these tables.
    pub fn of(alloc: Global, tables: &'a Tables<'a>) -> Result<BodyRules<'a>, NoMemory>
        ensures { IfOk result (λ rules. rules ≡ tables.now) }
    {
        let forms = Forms::of(alloc, tables)?;
        let signatures = Signatures::of(alloc, tables)?;
        Ok(BodyRules { forms, signatures })
    }

    /// The module's tables.
    pub fn tables(&self) -> &'a Tables<'a>
        ensures { result.now ≡ self.now }
    {
        self.signatures.tables()
    }

    /// The least rule that an instruction breaks that is one of functions.
    fn broken_in_functions(&self, standing: &Standing, inst: &View) -> Option<u16>
        ensures { (k : ℕ) → IsStanding self.now k standing.now → result ≡ least (rules_in_functions self.now k (seen inst.now)) }
    {
        let tables = self.tables();
        let arithmetic = broken_arithmetic_rule(tables.kinds(), inst);
        let composite = broken_composite_rule(&self.forms, inst);
        let usage = broken_usage_rule(tables, standing.stage, inst);
        let signature = broken_signature_rule(&self.signatures, &standing.context, inst);
        lesser(arithmetic, lesser(composite, lesser(usage, signature)))
    }

    /// The least of the rules 501, 502 and 504 to 507 that an instruction of the module breaks, where it stands. None
    /// before the first function, and for line marks.
    pub fn broken_rule(&self, standing: &Standing, inst: &View) -> Option<u16>
        ensures { (k : ℕ) → IsStanding self.now k standing.now → result ≡ least (body_rules self.now k (seen inst.now)) }
    {
        if standing.is_of_functions(inst) {
            self.broken_in_functions(standing, inst)
        } else {
            None
        }
    }
}

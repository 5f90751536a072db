ghost use Rattle.std.specs.Prelude.{◌≡◌, ℕ};
ghost use Rattle.spv_module.specs.First.{least};
ghost use Rattle.spv_module.specs.View.{seen};
ghost use Rattle.spv_signatures.specs.Broken.{signature_rules};
ghost use Rattle.spv_signatures.specs.Contexts.{IsContext};

use crate::calls::call_fits;
use crate::contexts::Context;
use crate::functions::function_fits;
use crate::returns::{result_fits, return_fits};
use crate::rule;
use crate::signatures::Signatures;
use spv_module::View;
use spv_values::rule::{OPERAND_TYPE, RESULT_TYPE};

/// The least of the rules 501, 502, 506 and 507 that a function, a parameter, a call or a return of the module breaks,
/// in its context.
pub fn broken_signature_rule(signatures: &Signatures, context: &Context, inst: &View) -> Option<u16>
    ensures { (k : ℕ) → IsContext signatures.now k context.now → result ≡ least (signature_rules signatures.now k (seen inst.now)) }
{
    let kinds = signatures.tables().kinds();
    if !function_fits(signatures, inst) {
        Some(OPERAND_TYPE)
    } else if !result_fits(kinds, context.next_type(), inst) {
        Some(RESULT_TYPE)
    } else if !call_fits(signatures, inst) {
        Some(rule::CALL_SHAPE)
    } else if !return_fits(kinds, context.result_type, inst) {
        Some(rule::RETURN_TYPE)
    } else {
        None
    }
}

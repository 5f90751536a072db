ghost use Rattle.std.specs.Prelude.{◌≡◌};
ghost use Rattle.spv_module.specs.First.{least};
ghost use Rattle.spv_module.specs.View.{seen};
ghost use Rattle.spv_arithmetic.specs.Broken.{arithmetic_rules};

use crate::operands::operands_fit;
use crate::results::result_fits;
use spv_module::View;
use spv_typing::Kinds;
use spv_values::rule;

/// The least rule on types that an instruction of arithmetic breaks, or a terminator that decides. None where it
/// breaks none, and for every other instruction.
pub fn broken_arithmetic_rule(kinds: &Kinds, inst: &View) -> Option<u16>
    ensures { result ≡ least (arithmetic_rules kinds.now (seen inst.now)) }
{
    if !operands_fit(kinds, inst) {
        Some(rule::OPERAND_TYPE)
    } else if !result_fits(kinds, inst) {
        Some(rule::RESULT_TYPE)
    } else {
        None
    }
}

ghost use Rattle.std.specs.Prelude.{◌≡◌};
ghost use Rattle.spv_module.specs.First.{least};
ghost use Rattle.spv_module.specs.View.{seen};
ghost use Rattle.spv_composites.specs.Broken as broken;

use crate::composites::{composite_operands_fit, composite_result_fits};
use crate::forms::Forms;
use crate::memory::{
    atomic_operands_fit, atomic_result_fits, memory_operands_fit, memory_result_fits,
};
use crate::vectors::{vector_operands_fit, vector_result_fits};
use spv_module::View;
use spv_values::rule;

/// Whether the operands of an instruction on vectors, composites, copies or memory fit (501). Every other instruction
/// passes.
pub fn operands_fit(forms: &Forms, inst: &View) -> bool
    ensures { result ≡ broken.operands_fit forms.now (seen inst.now) }
{
    let kinds = forms.tables().kinds();
    vector_operands_fit(kinds, inst)
        && composite_operands_fit(forms, inst)
        && memory_operands_fit(kinds, inst)
        && atomic_operands_fit(kinds, inst)
}

/// Whether the result of an instruction on vectors, composites, copies or memory fits (502). Every other instruction
/// passes.
pub fn result_fits(forms: &Forms, inst: &View) -> bool
    ensures { result ≡ broken.result_fits forms.now (seen inst.now) }
{
    let kinds = forms.tables().kinds();
    vector_result_fits(kinds, inst)
        && composite_result_fits(kinds, inst)
        && memory_result_fits(kinds, inst)
        && atomic_result_fits(kinds, inst)
}

/// The least rule that an instruction on vectors, composites, copies or memory breaks, 501 or 502. None for every other
/// instruction.
pub fn broken_composite_rule(forms: &Forms, inst: &View) -> Option<u16>
    ensures { result ≡ least (broken.composite_rules forms.now (seen inst.now)) }
{
    if !operands_fit(forms, inst) {
        Some(rule::OPERAND_TYPE)
    } else if !result_fits(forms, inst) {
        Some(rule::RESULT_TYPE)
    } else {
        None
    }
}

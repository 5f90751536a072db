// The rules on one instruction, from 301 to 308.
ghost use Rattle.std.specs.Prelude.{◌≡◌, ◌&&◌, ◌||◌, not, false};
ghost use Rattle.spv_module.specs.View.{seen};
ghost use Rattle.spv_declarations.specs.Broken as broken;
ghost use Rattle.spv_declarations.specs.Declarations.{Declared};
ghost use Rattle.spv_meaning.specs.Meanings.{is_laid as laid};
ghost use Rattle.spv_types.specs.Meanings.{StandFor};
ghost use Rattle.spv_types.specs.Steps.{ArrayIsKnown};
ghost use Rattle.spv_types.specs.Progress.{AreKnown, IsAsked, declaration_tests, early_tests, first_failing as failing};
ghost use Rattle.spv_typing.specs.Types.{type_fits as fits};
ghost use Rattle.spv_decorations.specs.Targets as targets;
ghost use Rattle.spv_declarations.specs.Constants as constants;

use crate::constants::constant_fits;
use crate::meanings::{Meanings, pointee_facts};
use spv_base::rule;
use spv_decorations::{Decorations, decoration_fits, global_fits};
use spv_ids::{broken_id_rule, word};
use spv_module::View;
use spv_opcodes::{op, storage_class};
use spv_typing::{Kinds, spec_op_fits, type_fits};

/// Where an instruction stands among the others.
#[derive(Clone, Copy, Debug)]
pub struct Standing {
    /// Its number, counted from 0.
    pub number: u32,
    /// A function has begun before it.
    pub begun: bool,
    /// It is a type that occurs before.
    pub occurs: bool,
    /// It is a decoration that stands before.
    pub repeats: bool,
}

/// Whether offsets and strides tell where a variable of the storage class lies.
fn is_laid(class: u32) -> bool
    ensures { result ≡ laid class }
{
    class == storage_class::STORAGE_BUFFER
        || class == storage_class::UNIFORM
        || class == storage_class::PUSH_CONSTANT
}

/// Whether the type of a global variable is laid out, where that matters. Every other instruction passes.
fn layout_fits(meanings: &Meanings, begun: bool, inst: &View) -> bool
    ensures { (d : Declared) → d.begun ≡ begun → StandFor d.table d.specialised meanings.now.entries → result ≡ broken.layout_fits d (seen inst.now) }
{
    begun
        || inst.opcode() != op::VARIABLE
        || !is_laid(word(inst, 3))
        || pointee_facts(meanings, word(inst, 1)).is_laid_out
}

/// Whether a type fits and does not occur before.
fn type_holds(kinds: &Kinds, occurs: bool, inst: &View) -> bool
    ensures { result ≡ (fits kinds.now (seen inst.now) && not occurs) }
{
    type_fits(kinds, inst) && !occurs
}

/// Whether a constant fits, outside functions.
fn constant_holds(kinds: &Kinds, meanings: &Meanings, begun: bool, inst: &View) -> bool
    ensures { (d : Declared) → d.begun ≡ begun → StandFor d.table d.specialised meanings.now.entries → (d.begun ≡ false → ArrayIsKnown kinds.now d.table (seen inst.now)) → result ≡ (d.begun || constants.constant_fits kinds.now d (seen inst.now)) }
{
    begun || constant_fits(kinds, meanings, inst)
}

/// Whether a decoration fits and does not stand before.
fn decoration_holds(kinds: &Kinds, repeats: bool, inst: &View) -> bool
    ensures { result ≡ (targets.decoration_fits kinds.now (seen inst.now) && not repeats) }
{
    decoration_fits(kinds, inst) && !repeats
}

/// The rule of the first test that fails.
fn first_failing(tests: &[(bool, u16)]) -> Option<u16>
    ensures { result ≡ failing tests.now }
{
    'tests: for test in tests {
        if !test.0 {
            return Some(test.1);
        }
    }
    None
}

/// The first rule from 303 to 308 that the instruction breaks.
fn declaration_rule(
    kinds: &Kinds,
    decorations: &Decorations,
    meanings: &Meanings,
    standing: Standing,
    inst: &View,
) -> Option<u16>
    requires same { decorations.now ≡ kinds.now }
    ensures { (d : Declared) → d.begun ≡ standing.begun → IsAsked kinds.now d standing.number (seen inst.now) standing.occurs standing.repeats meanings.now.entries → AreKnown kinds.now d standing.number (seen inst.now) → result ≡ failing (declaration_tests kinds.now d standing.number (seen inst.now)) }
{
    let begun = standing.begun;
    let tests = [
        (type_holds(kinds, standing.occurs, inst), rule::BAD_TYPE),
        (
            constant_holds(kinds, meanings, begun, inst),
            rule::BAD_CONSTANT,
        ),
        (spec_op_fits(kinds, inst), rule::BAD_SPEC_OP),
        (
            decoration_holds(kinds, standing.repeats, inst),
            rule::BAD_DECORATION,
        ),
        (layout_fits(meanings, begun, inst), rule::BAD_LAYOUT),
        (
            global_fits(kinds, decorations, begun, inst),
            rule::BAD_GLOBAL,
        ),
    ];
    first_failing(&tests)
}

/// The first rule but for that on depth that the instruction breaks, which is no line mark.
pub fn early_rule(
    kinds: &Kinds,
    decorations: &Decorations,
    meanings: &Meanings,
    standing: Standing,
    inst: &View,
) -> Option<u16>
    requires same { decorations.now ≡ kinds.now }
    ensures { (d : Declared) → d.begun ≡ standing.begun → IsAsked kinds.now d standing.number (seen inst.now) standing.occurs standing.repeats meanings.now.entries → result ≡ failing (early_tests kinds.now d standing.number (seen inst.now)) }
{
    match broken_id_rule(kinds.definitions(), standing.begun, standing.number, inst) {
        Some(rule) => Some(rule),
        None => declaration_rule(kinds, decorations, meanings, standing, inst),
    }
}

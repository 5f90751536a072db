ghost use Rattle.std.specs.Prelude.{◌≡◌, ℕ, ◌≤◌, length, slice_get, Some};
ghost use Rattle.spv_module.specs.Instruction.{Instruction};
ghost use Rattle.spv_module.specs.View.{seen};

use spv_blocks::Insts;
use spv_grammar::operands::count_of;
use spv_module::View;

/// The number of words of an instruction, which stands in half a word.
fn length_of(inst: &View) -> u16
    ensures { result ≡ length (seen inst.now).words }
{
    count_of(inst.words[0])
}

/// Says of each instruction that it has at most 65,535 words. Does nothing.
pub(crate) fn each_is_short(insts: &Insts)
    ensures { (k : ℕ) (i : Instruction) → slice_get insts.now k ≡ Some i → length i.words ≤ 65535 }
{
    'instructions: for k in 0..insts.count() {
        let _length = length_of(&insts.at(k));
    }
}

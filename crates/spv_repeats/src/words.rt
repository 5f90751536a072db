ghost use Rattle.std.specs.Prelude.{◌≡◌, drop, slice_index};
ghost use Rattle.spv_module.specs.View.{seen};

use spv_module::View;

/// The k-th word of an instruction, counted from 0; 0 past its end.
pub fn word(inst: &View, k: usize) -> u32
    ensures { result ≡ slice_index (seen inst.now).words k }
{
    inst.words.get(k).copied().unwrap_or(0)
}

/// The words of an instruction from the k-th on; none past its end.
pub fn words_from<'a>(inst: &View<'a>, k: usize) -> &'a [u32]
    ensures { result.now ≡ drop k (seen inst.now).words }
{
    if k < inst.words.len() {
        &inst.words[k..]
    } else {
        &[]
    }
}

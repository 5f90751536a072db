ghost use Rattle.std.specs.Prelude.{◌≡◌, ◌<◌, ◌==◌, ◌&&◌, Some, length, slice_get, slice_index, slice_set};
ghost use Rattle.spv_module.specs.Instruction.{Instruction, roles};
ghost use Rattle.spv_module.specs.View.{seen};
ghost use Rattle.spv_draft.specs.Named.{replaced, replaced_in, replaced_words, uses_at};

use crate::lines::Lines;
use crate::tally::is_annotation;
use spv_module::View;

/// Whether the word of an instruction at a place uses an id.
fn uses(inst: &View, at: usize, id: u32) -> bool
    requires { at < length (seen inst.now).words }
    ensures { result ≡ (uses_at (seen inst.now) at && slice_index (seen inst.now).words at == id) }
{
    inst.roles()[at].is_used_id() && inst.words[at] == id
}

/// Puts `to` for each word of instruction k that uses `from`.
fn replace_words(lines: &mut Lines, k: usize, from: u32, to: u32)
    requires within { k < length lines.old }
    requires some { 0 < to }
    ensures { (i : Instruction) → slice_get lines.old k ≡ Some i → lines.new ≡ slice_set lines.old k (record { offset = i.offset; words = replaced_words from to (roles i) i.words }) }
{
    let count = lines.at(k).words.len();
    'words: for at in 0..count {
        if uses(&lines.at(k), at, from) {
            lines.put_id(k, at, to);
        }
    }
}

/// Puts `to` for each use of `from` in instruction k, unless it is a name or a decoration.
fn replace_in(lines: &mut Lines, k: usize, from: u32, to: u32)
    requires within { k < length lines.old }
    requires some { 0 < to }
    ensures { (i : Instruction) → slice_get lines.old k ≡ Some i → lines.new ≡ slice_set lines.old k (replaced_in from to i) }
{
    if is_annotation(&lines.at(k)) {
        return;
    }
    replace_words(lines, k, from, to);
}

/// Puts `to` for each use of `from` in instructions, names and decorations aside.
pub fn replace_all(lines: &mut Lines, from: u32, to: u32)
    requires { 0 < to }
    ensures { lines.new ≡ replaced from to lines.old }
{
    'lines: for k in 0..lines.count() {
        replace_in(lines, k, from, to);
    }
}

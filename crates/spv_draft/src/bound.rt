ghost use Rattle.std.specs.Prelude.{◌≡◌, ◌<◌, ◌^◌, cond, nat_lt};
ghost use Rattle.spv_grammar.specs.Roles.{names_id};
ghost use Rattle.spv_module.specs.View.{seen};
ghost use Rattle.spv_draft.specs.Named.{bound_of_ids, greatest, named_ids, words_with};

use crate::lines::Lines;
use spv_grammar::kind::Role;
use spv_module::View;

/// The word where it names an id, else 0.
fn id_or_none(role: Role, word: u32) -> u32
    ensures { result ≡ cond (names_id role) word 0 }
{
    if role.names_id() { word } else { 0 }
}

/// The greatest id that an instruction names; 0 where it names none.
fn greatest_in(inst: &View) -> u32
    ensures { result ≡ greatest (words_with names_id (seen inst.now)) }
{
    let roles = inst.roles();
    let mut most: u32 = 0;
    'words: for k in 0..inst.words.len() {
        most = most.max(id_or_none(roles[k], inst.words[k]));
    }
    most
}

/// The greatest id that instructions name; 0 where they name none.
fn greatest_of(lines: &Lines) -> u32
    ensures { result ≡ greatest (named_ids lines.now) }
{
    let mut most: u32 = 0;
    'lines: for k in 0..lines.count() {
        most = most.max(greatest_in(&lines.at(k)));
    }
    most
}

/// One more than the greatest id that instructions name.
#[tactic(auto, unfolding(crate::specs::Named::bound_of_ids))]
pub fn bound_of(lines: &Lines) -> u32
    requires { bound_of_ids lines.now < 2 ^ 32 }
    ensures { result ≡ bound_of_ids lines.now }
{
    greatest_of(lines) + 1
}

/// Whether the bound of instructions is a word: whether none of them names the greatest id.
#[tactic(auto, unfolding(crate::specs::Named::bound_of_ids))]
pub fn is_bounded(lines: &Lines) -> bool
    ensures { result ≡ nat_lt (bound_of_ids lines.now) (2 ^ 32) }
{
    greatest_of(lines) < u32::MAX
}

ghost use Rattle.std.specs.Prelude.{◌≡◌, cond, max};
ghost use Rattle.std.specs.List.{fold, zip};
ghost use Rattle.spv_grammar.specs.Roles.{names_id};
ghost use Rattle.spv_module.specs.View.{seen};
ghost use Rattle.spv_bound.specs.Bound.{bound_of_ids, greatest, words_with};

use spv_grammar::kind::Role;
use spv_module::{InstList, View};

/// The greatest of the words that name ids; 0 where there is none.
fn greatest_among(roles: &[Role], words: &[u32]) -> u32
    ensures { result ≡ fold (λ most part. max most (cond (names_id part.0) part.1 0)) 0 (zip roles.now words.now) }
{
    roles.iter().zip(words).fold(
        0,
        |most, (role, word)| most.max(if role.names_id() { *word } else { 0 }),
    )
}

/// The greatest id that an instruction names; 0 where it names none.
fn greatest_id(inst: &View) -> u32
    ensures { result ≡ greatest (words_with names_id (seen inst.now)) }
{
    greatest_among(inst.roles(), inst.words)
}

/// One more than the greatest id that the instructions name; 1 where they name none.
pub fn bound_of(insts: &InstList) -> u64
    ensures { result ≡ bound_of_ids insts.now }
{
    let mut most: u32 = 0;
    'instructions: for k in 0..insts.count() {
        most = most.max(greatest_id(&insts.at(k)));
    }
    u64::from(most) + 1
}

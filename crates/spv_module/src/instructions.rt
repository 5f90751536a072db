ghost use Rattle.std.specs.Prelude.{◌≡◌, ◌+◌, ◌<◌, ◌^◌, length, []};
ghost use Rattle.spv_module.specs.Reading.{Front, ReadsAll};

use crate::list::InstList;
use crate::rules::broken_rule;
use crate::view::View;
use spv_base::{Fault, NoMemory, Refusal, rule};
use spv_grammar::kind::Role;
use spv_grammar::operands::count_of;
use std::alloc::Global;

/// The number of words of the instruction in front of `words`, which stand at the place `at`. `roles`, which
/// is to be empty, gets the part that each of its words plays. Refuses by the least rule that it breaks.
fn front(
    alloc: Global,
    bound: u32,
    at: u32,
    words: &[u32],
    roles: &mut Vec<Role>,
) -> Result<usize, Fault>
    requires some { 0 < length words.now }
    requires empty { roles.old.items ≡ [] }
    ensures { Front bound at words.now roles.new.items result }
{
    let count = usize::from(count_of(words[0]));
    if count == 0 {
        return Err(Fault::Refused(Refusal {
            rule: rule::ZERO_COUNT,
            at,
        }));
    }
    if count > words.len() {
        return Err(Fault::Refused(Refusal {
            rule: rule::PAST_END,
            at,
        }));
    }
    match broken_rule(alloc, bound, &words[..count], roles)? {
        Some(rule) => Err(Fault::Refused(Refusal { rule, at })),
        None => Ok(count),
    }
}

/// The instructions that `words` spell, the first of which stands at the place `at`. Refuses by the first
/// rule that one of them breaks.
pub fn read_instructions(
    alloc: Global,
    bound: u32,
    at: u32,
    words: &[u32],
) -> Result<InstList, Fault>
    requires { at + length words.now < 2 ^ 32 }
    ensures { ReadsAll bound at words.now result }
{
    let mut insts = InstList::new(alloc);
    let mut roles = Vec::new(alloc);
    let mut place = at;
    let mut rest = words;
    'instructions: while !rest.is_empty() {
        roles.clear();
        let count = front(alloc, bound, place, rest, &mut roles)?;
        let (inst, behind) = rest.split_at(count);
        insts.push_view(View::new(place, inst, &roles))?;
        place += count as u32;
        rest = behind;
    }
    Ok(insts)
}

ghost use Rattle.std.specs.Prelude.{◌≡◌, ◌&&◌, [], Ok, None, length, IfOk};
ghost use Rattle.std.specs.List.{list_any, zip};
ghost use Rattle.spv_grammar.specs.Operands.{roles_of};
ghost use Rattle.spv_grammar.specs.Roles.{names_id, is_bad_octets, is_unknown};
ghost use Rattle.spv_module.specs.First.{least};
ghost use Rattle.spv_module.specs.Instruction.{is_out_of_bound as out_of_bound, instruction_rules, part_rules, string_rule};

use spv_base::{NoMemory, rule};
use spv_grammar::kind::Role;
use spv_grammar::operands::push_roles;
use std::alloc::Global;

fn is_out_of_bound(bound: u32, id: u32) -> bool
    ensures { result ≡ out_of_bound bound id }
{
    id == 0 || bound <= id
}

/// Whether one of the words names an id that is 0 or not below the bound.
fn has_id_out_of_bound(bound: u32, roles: &[Role], words: &[u32]) -> bool
    ensures { result ≡ list_any (λ part. names_id part.0 && out_of_bound bound part.1) (zip roles.now words.now) }
{
    roles.iter().zip(words).any(|(role, word)| role.names_id() && is_out_of_bound(bound, *word))
}

fn has_bad_octets(roles: &[Role]) -> bool
    ensures { result ≡ list_any is_bad_octets roles.now }
{
    roles.iter().any(|role| role.is_bad_octets())
}

fn has_unknown(roles: &[Role]) -> bool
    ensures { result ≡ list_any is_unknown roles.now }
{
    roles.iter().any(|role| role.is_unknown())
}

/// The least rule that an instruction with these parts breaks.
fn broken_part(bound: u32, roles: &[Role], words: &[u32]) -> Option<u16>
    ensures { result ≡ least (part_rules (string_rule roles.now) bound roles.now words.now) }
{
    if has_bad_octets(roles) {
        Some(rule::BAD_STRING)
    } else if has_id_out_of_bound(bound, roles, words) {
        Some(rule::BOUND)
    } else if has_unknown(roles) {
        Some(rule::BAD_ENUMERANT)
    } else {
        None
    }
}

/// The least rule that an instruction breaks, below a bound of ids. `roles`, which is to be empty, gets the
/// part that each word plays.
#[tactic(auto, unfolding(crate::specs::Instruction::instruction_rules))]
pub fn broken_rule(
    alloc: Global,
    bound: u32,
    words: &[u32],
    roles: &mut Vec<Role>,
) -> Result<Option<u16>, NoMemory>
    requires { roles.old.items ≡ [] }
    ensures rule { IfOk result (λ broken. broken ≡ least (instruction_rules bound words.now)) }
    ensures parts { IfOk result (λ broken. broken ≡ None → roles_of words.now ≡ Ok roles.new.items) }
{
    if let Some(rule) = push_roles(alloc, words, roles)? {
        return Ok(Some(rule));
    }
    Ok(broken_part(bound, roles, words))
}

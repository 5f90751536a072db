ghost use Rattle.std.specs.Prelude.{◌≡◌, ◌&&◌};
ghost use Rattle.std.specs.List.{list_any, zip};
ghost use Rattle.spv_module.specs.First.{least};
ghost use Rattle.spv_module.specs.View.{seen};
ghost use Rattle.spv_ids.specs.Ids.{is_needed as needed, is_declaration as declaration, is_second as second, is_unknown as unknown, names_unknown as unknown_named, id_rules};

use crate::definitions::Definitions;
use spv_base::rule;
use spv_grammar::kind::Role;
use spv_grammar::section;
use spv_module::View;
use spv_module::layout::{is_line, plain_section};

/// Whether the word is the id of the result's type or of an operand.
fn is_needed(role: Role) -> bool
    ensures { result ≡ needed role }
{
    role.is_type_id() || role.is_used_id()
}

/// Whether the instruction is a type, a constant or a global variable.
fn is_declaration(begun: bool, inst: &View) -> bool
    ensures { result ≡ declaration begun (seen inst.now) }
{
    !begun && plain_section(false, inst) == section::DECLARATIONS
}

/// Whether an instruction before the k-th defines the id that this one defines.
fn is_second(definitions: &Definitions, k: u32, inst: &View) -> bool
    ensures { result ≡ second definitions.now k (seen inst.now) }
{
    let Some(id) = inst.result() else {
        return false;
    };
    match definitions.place(id.number()) {
        Some(place) => place < k,
        None => false,
    }
}

/// Whether no instruction defines the id, or, where it has to be defined early, none before the k-th does.
fn is_unknown(definitions: &Definitions, early: bool, k: u32, id: u32) -> bool
    ensures { result ≡ unknown definitions.now early k id }
{
    match definitions.place(id) {
        Some(place) => early && k <= place,
        None => true,
    }
}

/// Whether one of the words is a needed id that is unknown.
fn have_unknown(
    definitions: &Definitions,
    early: bool,
    k: u32,
    roles: &[Role],
    words: &[u32],
) -> bool
    ensures { result ≡ list_any (λ part. needed part.0 && unknown definitions.now early k part.1) (zip roles.now words.now) }
{
    roles.iter().zip(words).any(|(role, word)| is_needed(*role)
        && is_unknown(definitions, early, k, *word))
}

/// Whether the instruction names an id that is unknown.
fn names_unknown(definitions: &Definitions, begun: bool, k: u32, inst: &View) -> bool
    ensures { result ≡ unknown_named definitions.now begun k (seen inst.now) }
{
    let early = is_declaration(begun, inst);
    have_unknown(definitions, early, k, inst.roles(), inst.words)
}

/// The least rule on ids that the k-th instruction, counted from 0, breaks. `begun` says that a function has
/// begun before it.
pub fn broken_id_rule(definitions: &Definitions, begun: bool, k: u32, inst: &View) -> Option<u16>
    ensures { result ≡ least (id_rules definitions.now begun k (seen inst.now)) }
{
    if is_line(inst) {
        None
    } else if is_second(definitions, k, inst) {
        Some(rule::ID_TWICE)
    } else if names_unknown(definitions, begun, k, inst) {
        Some(rule::ID_UNKNOWN)
    } else {
        None
    }
}

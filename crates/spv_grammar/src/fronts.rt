ghost use Rattle.std.specs.Prelude.{◌≡◌};
ghost use Rattle.std.specs.List.{list_any};
ghost use Rattle.spv_grammar.specs.Fronts.{is_result as gives_result, is_result_type as gives_result_type, has_result as result_in, has_result_type as result_type_in, Tells, front_count as count_in_front, IsAloneInFront};
ghost use Rattle.spv_grammar.specs.Roles.{is_defined_id, is_type_id};

use crate::kind::{Kind, Role};
use crate::table::row_of;

fn has_result_operand(kinds: &[Kind]) -> bool
    ensures { result ≡ list_any gives_result kinds.now }
{
    kinds.iter().any(|kind| matches!(kind, Kind::ResultId))
}

fn has_result_type_operand(kinds: &[Kind]) -> bool
    ensures { result ≡ list_any gives_result_type kinds.now }
{
    kinds.iter().any(|kind| matches!(kind, Kind::ResultType))
}

/// Whether the opcode's instructions define an id. False where the profile does not have the opcode.
#[tactic(auto, using(crate::proofs::FrontParts::defined_where_row_has_result))]
pub fn has_result(opcode: u16) -> bool
    ensures row { result ≡ result_in opcode }
    ensures instructions { Tells is_defined_id opcode result }
{
    match row_of(opcode) {
        Some(row) => has_result_operand(row.kinds),
        None => false,
    }
}

/// Whether the opcode's instructions name the type of the id that they define. False where the profile does
/// not have the opcode.
#[tactic(auto, using(crate::proofs::FrontParts::typed_where_row_has_result_type))]
pub fn has_result_type(opcode: u16) -> bool
    ensures row { result ≡ result_type_in opcode }
    ensures instructions { Tells is_type_id opcode result }
{
    match row_of(opcode) {
        Some(row) => has_result_type_operand(row.kinds),
        None => false,
    }
}

fn count_while_front(roles: &[Role]) -> usize
    ensures { result ≡ count_in_front roles.now }
{
    roles.iter().take_while(|role| role.is_front()).count()
}

/// How many words of an instruction with these parts stand in front of its operands: the first one, the
/// result's type and the result.
#[tactic(auto, using(crate::proofs::FrontParts::front_alone))]
pub fn front_count(roles: &[Role]) -> usize
    ensures count { result ≡ count_in_front roles.now }
    ensures alone { IsAloneInFront result roles.now }
{
    count_while_front(roles)
}

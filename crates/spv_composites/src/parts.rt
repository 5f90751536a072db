ghost use Rattle.std.specs.Prelude.{◌≡◌};
ghost use Rattle.spv_typing.specs.Operations as operations;

use spv_typing::Kinds;

/// A literal of a shuffle that picks no component.
const NO_COMPONENT: u32 = 0xFFFF_FFFF;

/// Whether each literal of a shuffle names one of so many components, or none.
pub fn all_pick(components: u64, literals: &[u32]) -> bool
    ensures { result ≡ operations.all_pick components literals.now }
{
    literals.iter().all(|literal| u64::from(*literal) < components || *literal == NO_COMPONENT)
}

/// The type of a composite's part. None where the type has no such part.
fn part_at(kinds: &Kinds, t: u32, index: u32) -> Option<u32>
    ensures { result ≡ operations.part_at kinds.now t index }
{
    if kinds.is_struct(t) {
        kinds.members(t).get(index as usize).copied()
    } else if kinds.is_array(t) {
        Some(kinds.element(t))
    } else if kinds.is_vector(t) && index < kinds.component_count(t) {
        Some(kinds.component(t))
    } else {
        None
    }
}

/// The type of the part of a composite that literals lead to. None where they lead to none.
pub fn part_along(kinds: &Kinds, literals: &[u32], t: u32) -> Option<u32>
    ensures { result ≡ operations.part_along kinds.now literals.now t }
{
    let mut part = t;
    'literals: for index in literals {
        part = part_at(kinds, part, *index)?;
    }
    Some(part)
}

/// Whether there is a type, and it is this one.
pub fn leads_to(t: u32, found: Option<u32>) -> bool
    ensures { result ≡ operations.leads_to t found }
{
    found == Some(t)
}

/// Whether one or more literals lead from one type to the other.
pub fn literals_lead(kinds: &Kinds, literals: &[u32], from: u32, to: u32) -> bool
    ensures { result ≡ operations.literals_lead kinds.now literals.now from to }
{
    !literals.is_empty() && leads_to(to, part_along(kinds, literals, from))
}

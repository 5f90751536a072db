ghost use Rattle.std.specs.Prelude.{◌≡◌, ◌++◌, ℕ, List};
ghost use Rattle.spv_base.specs.declared.fault.Refusal.{Refusal};
ghost use Rattle.spv_module.specs.First.{comes_before, first, here, least, unless};
ghost use Rattle.spv_walk.specs.Found.{earlier_of};

use spv_base::Refusal;

/// Whether the first stands at a lesser place than the second, or is a lesser rule at the same place.
fn precedes(one: Refusal, other: Refusal) -> bool
    ensures { result ≡ comes_before one other }
{
    one.at < other.at || (one.at == other.at && one.rule < other.rule)
}

/// The earlier of two broken rules, if there is one: the one at the lesser place, there the lesser rule. So the first of
/// two lists of broken rules is the earlier of the first of each.
pub fn earlier(one: Option<Refusal>, other: Option<Refusal>) -> Option<Refusal>
    ensures same { result ≡ earlier_of one other }
    ensures parts { (bs cs : List Refusal) → one ≡ first bs → other ≡ first cs → result ≡ first (bs ++ cs) }
{
    match (one, other) {
        (Some(one), Some(other)) if precedes(other, one) => Some(other),
        (Some(one), _) => Some(one),
        (None, other) => other,
    }
}

/// A rule, where the test fails.
pub fn rule_unless(passes: bool, rule: u16) -> Option<u16>
    ensures { result ≡ least (unless passes rule) }
{
    if passes { None } else { Some(rule) }
}

/// The refusal at a place by the least of the rules that are broken there, if there is one.
pub fn fault_at(at: u32, rule: Option<u16>) -> Option<Refusal>
    ensures { (rules : List ℕ) → rule ≡ least rules → result ≡ first (here at rules) }
{
    match rule {
        Some(rule) => Some(Refusal { rule, at }),
        None => None,
    }
}

ghost use Rattle.std.specs.Prelude.{◌≡◌};
ghost use Rattle.spv_body_rules.specs.Least.{lesser as lesser_of};

/// The lesser of two rules, as far as there are any.
pub fn lesser(one: Option<u16>, other: Option<u16>) -> Option<u16>
    ensures { result ≡ lesser_of one other }
{
    match (one, other) {
        (None, other) => other,
        (Some(one), None) => Some(one),
        (Some(one), Some(other)) => Some(one.min(other)),
    }
}

// Comparisons and logic at one component. A boolean is a word, 0 or 1.
ghost use Rattle.std.specs.Prelude.{◌≡◌, ◌<◌};
ghost use Rattle.spv_value.specs.Compare.{i_equal, i_not_equal, u_less_than, u_less_than_equal, u_greater_than, u_greater_than_equal, s_less_than, s_less_than_equal, s_greater_than, s_greater_than_equal, logical_not, logical_and, logical_or, select};

#[tactic(auto, unfolding(crate::specs::Compare::i_equal))]
pub fn i_equal(a: u32, b: u32) -> u32
    ensures { result ≡ i_equal a b }
{
    u32::from(a == b)
}

#[tactic(auto, unfolding(crate::specs::Compare::i_not_equal))]
pub fn i_not_equal(a: u32, b: u32) -> u32
    ensures { result ≡ i_not_equal a b }
{
    u32::from(a != b)
}

#[tactic(auto, unfolding(crate::specs::Compare::u_less_than))]
pub fn u_less_than(a: u32, b: u32) -> u32
    ensures { result ≡ u_less_than a b }
{
    u32::from(a < b)
}

#[tactic(auto, unfolding(crate::specs::Compare::u_less_than_equal))]
pub fn u_less_than_equal(a: u32, b: u32) -> u32
    ensures { result ≡ u_less_than_equal a b }
{
    u32::from(a <= b)
}

#[tactic(auto, unfolding(crate::specs::Compare::u_greater_than))]
pub fn u_greater_than(a: u32, b: u32) -> u32
    ensures { result ≡ u_greater_than a b }
{
    u32::from(a > b)
}

#[tactic(auto, unfolding(crate::specs::Compare::u_greater_than_equal))]
pub fn u_greater_than_equal(a: u32, b: u32) -> u32
    ensures { result ≡ u_greater_than_equal a b }
{
    u32::from(a >= b)
}

#[tactic(auto, unfolding(crate::specs::Compare::s_less_than))]
pub fn s_less_than(a: u32, b: u32) -> u32
    ensures { result ≡ s_less_than 32 a b }
{
    u32::from(a.cast_signed() < b.cast_signed())
}

#[tactic(auto, unfolding(crate::specs::Compare::s_less_than_equal))]
pub fn s_less_than_equal(a: u32, b: u32) -> u32
    ensures { result ≡ s_less_than_equal 32 a b }
{
    u32::from(a.cast_signed() <= b.cast_signed())
}

#[tactic(auto, unfolding(crate::specs::Compare::s_greater_than))]
pub fn s_greater_than(a: u32, b: u32) -> u32
    ensures { result ≡ s_greater_than 32 a b }
{
    u32::from(a.cast_signed() > b.cast_signed())
}

#[tactic(auto, unfolding(crate::specs::Compare::s_greater_than_equal))]
pub fn s_greater_than_equal(a: u32, b: u32) -> u32
    ensures { result ≡ s_greater_than_equal 32 a b }
{
    u32::from(a.cast_signed() >= b.cast_signed())
}

#[tactic(auto, unfolding(crate::specs::Compare::logical_not))]
pub fn logical_not(a: u32) -> u32
    ensures { result ≡ logical_not a }
{
    u32::from(a != 1)
}

#[tactic(auto, unfolding(crate::specs::Compare::logical_and))]
pub fn logical_and(a: u32, b: u32) -> u32
    ensures { result ≡ logical_and a b }
{
    u32::from(a == 1 && b == 1)
}

#[tactic(auto, unfolding(crate::specs::Compare::logical_or))]
pub fn logical_or(a: u32, b: u32) -> u32
    ensures { result ≡ logical_or a b }
{
    u32::from(a == 1 || b == 1)
}

#[tactic(auto, unfolding(crate::specs::Compare::select))]
pub fn select(condition: u32, a: u32, b: u32) -> u32
    ensures { result ≡ select condition a b }
{
    if condition == 1 { a } else { b }
}

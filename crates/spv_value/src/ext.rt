// Instructions of `GLSL.std.450` at one component.
ghost use Rattle.std.specs.Prelude.{◌≡◌};
ghost use Rattle.spv_value.specs.Ext.{s_abs, s_sign, u_min, u_max, s_min, s_max, u_clamp, s_clamp};

#[tactic(auto, unfolding(crate::specs::Ext::s_abs))]
pub fn s_abs(a: u32) -> u32
    ensures { result ≡ s_abs 32 a }
{
    a.cast_signed().unsigned_abs()
}

#[tactic(auto, unfolding(crate::specs::Ext::s_sign))]
pub fn s_sign(a: u32) -> u32
    ensures { result ≡ s_sign 32 a }
{
    a.cast_signed().signum().cast_unsigned()
}

#[tactic(auto, unfolding(crate::specs::Ext::u_min))]
pub fn u_min(a: u32, b: u32) -> u32
    ensures { result ≡ u_min a b }
{
    a.min(b)
}

#[tactic(auto, unfolding(crate::specs::Ext::u_max))]
pub fn u_max(a: u32, b: u32) -> u32
    ensures { result ≡ u_max a b }
{
    a.max(b)
}

#[tactic(auto, unfolding(crate::specs::Ext::s_min))]
pub fn s_min(a: u32, b: u32) -> u32
    ensures { result ≡ s_min 32 a b }
{
    a.cast_signed().min(b.cast_signed()).cast_unsigned()
}

#[tactic(auto, unfolding(crate::specs::Ext::s_max))]
pub fn s_max(a: u32, b: u32) -> u32
    ensures { result ≡ s_max 32 a b }
{
    a.cast_signed().max(b.cast_signed()).cast_unsigned()
}

// The bounds may stand in any order, so this is not `clamp`.
#[tactic(auto, unfolding(crate::specs::Ext::u_clamp))]
pub fn u_clamp(a: u32, low: u32, high: u32) -> u32
    ensures { result ≡ u_clamp a low high }
{
    a.max(low).min(high)
}

#[tactic(auto, unfolding(crate::specs::Ext::s_clamp))]
pub fn s_clamp(a: u32, low: u32, high: u32) -> u32
    ensures { result ≡ s_clamp 32 a low high }
{
    a.cast_signed()
        .max(low.cast_signed())
        .min(high.cast_signed())
        .cast_unsigned()
}

// Arithmetic at one component.
ghost use Rattle.std.specs.Prelude.{◌≡◌, ◌*ℤ◌};
ghost use Rattle.spv_value.specs.Numbers.{signed};
ghost use Rattle.spv_value.specs.Arith.{s_negate, i_add, i_sub, i_mul, u_div, u_mod, s_div, s_rem, s_mod, carry, borrow, u_mul_high, s_mul_low, s_mul_high, shift_right_logical, shift_right_arithmetic, shift_left_logical};

#[tactic(auto, using(crate::proofs::Readings::wrapped_sub), unfolding(crate::specs::Arith::s_negate))]
pub fn s_negate(a: u32) -> u32
    ensures { result ≡ s_negate 32 a }
{
    0u32.wrapping_sub(a)
}

#[tactic(auto, unfolding(crate::specs::Arith::i_add, crate::specs::Numbers::wrapped))]
pub fn i_add(a: u32, b: u32) -> u32
    ensures { result ≡ i_add 32 a b }
{
    a.wrapping_add(b)
}

#[tactic(auto, using(crate::proofs::Readings::wrapped_sub), unfolding(crate::specs::Arith::i_sub))]
pub fn i_sub(a: u32, b: u32) -> u32
    ensures { result ≡ i_sub 32 a b }
{
    a.wrapping_sub(b)
}

#[tactic(auto, unfolding(crate::specs::Arith::i_mul, crate::specs::Numbers::wrapped))]
pub fn i_mul(a: u32, b: u32) -> u32
    ensures { result ≡ i_mul 32 a b }
{
    a.wrapping_mul(b)
}

#[tactic(auto, unfolding(crate::specs::Arith::u_div))]
pub fn u_div(a: u32, b: u32) -> u32
    ensures { result ≡ u_div a b }
{
    a.checked_div(b).unwrap_or(0)
}

#[tactic(auto, unfolding(crate::specs::Arith::u_mod))]
pub fn u_mod(a: u32, b: u32) -> u32
    ensures { result ≡ u_mod a b }
{
    a.checked_rem(b).unwrap_or(0)
}

#[tactic(auto, unfolding(crate::specs::Arith::s_div))]
pub fn s_div(a: u32, b: u32) -> u32
    ensures { result ≡ s_div 32 a b }
{
    if b == 0 {
        return 0;
    }
    a.cast_signed()
        .wrapping_div(b.cast_signed())
        .cast_unsigned()
}

#[tactic(auto, unfolding(crate::specs::Arith::s_rem))]
pub fn s_rem(a: u32, b: u32) -> u32
    ensures { result ≡ s_rem 32 a b }
{
    if b == 0 {
        return 0;
    }
    a.cast_signed()
        .wrapping_rem(b.cast_signed())
        .cast_unsigned()
}

#[tactic(auto, unfolding(crate::specs::Arith::s_mod))]
pub fn s_mod(a: u32, b: u32) -> u32
    ensures { result ≡ s_mod 32 a b }
{
    if b == 0 {
        return 0;
    }
    let divisor = b.cast_signed();
    let rest = a.cast_signed().wrapping_rem_euclid(divisor);
    if rest == 0 {
        return 0;
    }
    if divisor < 0 {
        (rest + divisor).cast_unsigned()
    } else {
        rest.cast_unsigned()
    }
}

#[tactic(auto, unfolding(crate::specs::Arith::carry))]
pub fn carry(a: u32, b: u32) -> u32
    ensures { result ≡ carry 32 a b }
{
    let (_, carried) = a.overflowing_add(b);
    u32::from(carried)
}

#[tactic(auto, unfolding(crate::specs::Arith::borrow))]
pub fn borrow(a: u32, b: u32) -> u32
    ensures { result ≡ borrow a b }
{
    u32::from(a < b)
}

#[tactic(auto, unfolding(crate::specs::Arith::u_mul_high))]
pub fn u_mul_high(a: u32, b: u32) -> u32
    ensures { result ≡ u_mul_high 32 a b }
{
    let product = u64::from(a) * u64::from(b);
    (product >> 32) as u32
}

fn signed_product(a: u32, b: u32) -> i64
    ensures { result ≡ signed 32 a *ℤ signed 32 b }
{
    i64::from(a.cast_signed()) * i64::from(b.cast_signed())
}

#[tactic(auto, using(crate::proofs::Readings::wrapped_mul), unfolding(crate::specs::Arith::s_mul_low))]
pub fn s_mul_low(a: u32, b: u32) -> u32
    ensures { result ≡ s_mul_low 32 a b }
{
    a.wrapping_mul(b)
}

#[tactic(auto, unfolding(crate::specs::Arith::s_mul_high))]
pub fn s_mul_high(a: u32, b: u32) -> u32
    ensures { result ≡ s_mul_high 32 a b }
{
    let product = signed_product(a, b);
    ((product >> 32) as i32).cast_unsigned()
}

#[tactic(auto, unfolding(crate::specs::Arith::shift_right_logical))]
pub fn shift_right_logical(base: u32, amount: u32) -> u32
    ensures { result ≡ shift_right_logical 32 base amount }
{
    base.unbounded_shr(amount)
}

#[tactic(auto, unfolding(crate::specs::Arith::shift_right_arithmetic))]
pub fn shift_right_arithmetic(base: u32, amount: u32) -> u32
    ensures { result ≡ shift_right_arithmetic 32 base amount }
{
    if amount >= u32::BITS {
        return 0;
    }
    (base.cast_signed() >> amount).cast_unsigned()
}

#[tactic(auto, unfolding(crate::specs::Arith::shift_left_logical, crate::specs::Numbers::wrapped))]
pub fn shift_left_logical(base: u32, amount: u32) -> u32
    ensures { result ≡ shift_left_logical 32 base amount }
{
    base.unbounded_shl(amount)
}

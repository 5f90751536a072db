// Bits of one component, and searches for one.
ghost use Rattle.std.specs.Prelude.{◌≡◌};
ghost use Rattle.spv_value.specs.Bits.{bitwise_or, bitwise_xor, bitwise_and, bitwise_not, bit_reverse, bit_count, find_i_lsb, find_u_msb, find_s_msb};

// What a search gives where there is no such bit: -1.
const NOT_FOUND: u32 = u32::MAX;

#[tactic(auto, unfolding(crate::specs::Bits::bitwise_or))]
pub fn bitwise_or(a: u32, b: u32) -> u32
    ensures { result ≡ bitwise_or 32 a b }
{
    a | b
}

#[tactic(auto, unfolding(crate::specs::Bits::bitwise_xor))]
pub fn bitwise_xor(a: u32, b: u32) -> u32
    ensures { result ≡ bitwise_xor 32 a b }
{
    a ^ b
}

#[tactic(auto, unfolding(crate::specs::Bits::bitwise_and))]
pub fn bitwise_and(a: u32, b: u32) -> u32
    ensures { result ≡ bitwise_and 32 a b }
{
    a & b
}

#[tactic(auto, unfolding(crate::specs::Bits::bitwise_not))]
pub fn bitwise_not(a: u32) -> u32
    ensures { result ≡ bitwise_not 32 a }
{
    !a
}

#[tactic(auto, unfolding(crate::specs::Bits::bit_reverse))]
pub fn bit_reverse(a: u32) -> u32
    ensures { result ≡ bit_reverse 32 a }
{
    a.reverse_bits()
}

#[tactic(auto, unfolding(crate::specs::Bits::bit_count))]
pub fn bit_count(a: u32) -> u32
    ensures { result ≡ bit_count 32 a }
{
    a.count_ones()
}

#[tactic(auto, unfolding(crate::specs::Bits::find_i_lsb))]
pub fn find_i_lsb(a: u32) -> u32
    ensures { result ≡ find_i_lsb 32 a }
{
    if a == 0 {
        NOT_FOUND
    } else {
        a.trailing_zeros()
    }
}

#[tactic(auto, unfolding(crate::specs::Bits::find_u_msb))]
pub fn find_u_msb(a: u32) -> u32
    ensures { result ≡ find_u_msb 32 a }
{
    a.checked_ilog2().unwrap_or(NOT_FOUND)
}

#[tactic(auto, unfolding(crate::specs::Bits::find_s_msb))]
pub fn find_s_msb(a: u32) -> u32
    ensures { result ≡ find_s_msb 32 a }
{
    if a.cast_signed() < 0 {
        find_u_msb(!a)
    } else {
        find_u_msb(a)
    }
}

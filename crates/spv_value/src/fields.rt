// Bit fields of one component: `count` bits from `offset` on. A field that passes the width gives 0.
ghost use Rattle.std.specs.Prelude.{◌≡◌, ◌-◌, ◌^◌, ◌≤◌};
ghost use Rattle.spv_value.specs.Bits.{bit_field_insert, bit_field_u_extract, bit_field_s_extract};

// The word whose lowest `count` bits are 1.
fn low_ones(count: u32) -> u32
    requires { count ≤ 32 }
    ensures { result ≡ 2 ^ count - 1 }
{
    u32::MAX.unbounded_shr(u32::BITS - count)
}

#[tactic(auto, unfolding(crate::specs::Bits::bit_field_insert))]
pub fn bit_field_insert(base: u32, insert: u32, offset: u32, count: u32) -> u32
    ensures { result ≡ bit_field_insert 32 base insert offset count }
{
    if offset.saturating_add(count) > u32::BITS {
        return 0;
    }
    let below = base & low_ones(offset);
    let field = (insert & low_ones(count)).unbounded_shl(offset);
    let above = base & !low_ones(offset + count);
    above | (field | below)
}

#[tactic(auto, unfolding(crate::specs::Bits::bit_field_u_extract))]
pub fn bit_field_u_extract(base: u32, offset: u32, count: u32) -> u32
    ensures { result ≡ bit_field_u_extract 32 base offset count }
{
    if offset.saturating_add(count) > u32::BITS {
        return 0;
    }
    base.unbounded_shr(offset) & low_ones(count)
}

#[tactic(auto, unfolding(crate::specs::Bits::bit_field_s_extract))]
pub fn bit_field_s_extract(base: u32, offset: u32, count: u32) -> u32
    ensures { result ≡ bit_field_s_extract 32 base offset count }
{
    if offset.saturating_add(count) > u32::BITS {
        return 0;
    }
    if count == 0 {
        return 0;
    }
    let field = base.unbounded_shr(offset) & low_ones(count);
    let sign = field >> (count - 1);
    if sign == 0 {
        field
    } else {
        !low_ones(count) | field
    }
}

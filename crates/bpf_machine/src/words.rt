// Arithmetic with signs, and the parts of words.
ghost use Rattle.std.specs.Prelude.{◌≡◌, ◌<◌, ◌%◌, ◌^◌};
ghost use Rattle.bpf_insn.specs.Slots.{word};
ghost use Rattle.bpf_machine.specs.Words.{low, extended, signed_quotient, signed_remainder, shifted_signed, is_below};
ghost use Rattle.bpf_machine.specs.Words.{low_bits, swapped_octets};

use bpf_insn::Insn;

// The low 8 bits.
#[inline(always)]
pub(crate) fn low_8(n: u64) -> u8
    ensures { result ≡ low 8 n }
{
    (n % 0x100) as u8
}

// The low 16 bits.
#[inline(always)]
pub(crate) fn low_16(n: u64) -> u16
    ensures { result ≡ low 16 n }
{
    (n % 0x1_0000) as u16
}

// The low 32 bits.
#[inline(always)]
pub(crate) fn low_32(n: u64) -> u32
    ensures { result ≡ low 32 n }
{
    (n % 0x1_0000_0000) as u32
}

// The low 8 bits with their sign, in 64.
#[inline(always)]
pub(crate) fn extended_8(n: u64) -> u64
    ensures { result ≡ extended 8 64 n }
{
    i64::from(low_8(n).cast_signed()).cast_unsigned()
}

// The low 16 bits with their sign, in 64.
#[inline(always)]
pub(crate) fn extended_16(n: u64) -> u64
    ensures { result ≡ extended 16 64 n }
{
    i64::from(low_16(n).cast_signed()).cast_unsigned()
}

// The low 32 bits with their sign, in 64.
#[inline(always)]
pub(crate) fn extended_32(n: u64) -> u64
    ensures { result ≡ extended 32 64 n }
{
    i64::from(low_32(n).cast_signed()).cast_unsigned()
}

// The low 8 bits with their sign, in 32.
#[inline(always)]
pub(crate) fn short_8(n: u32) -> u32
    ensures { result ≡ extended 8 32 n }
{
    i32::from(low_8(u64::from(n)).cast_signed()).cast_unsigned()
}

// The low 16 bits with their sign, in 32.
#[inline(always)]
pub(crate) fn short_16(n: u32) -> u32
    ensures { result ≡ extended 16 32 n }
{
    i32::from(low_16(u64::from(n)).cast_signed()).cast_unsigned()
}

// A signed quotient of 64 bits.
#[inline(always)]
pub(crate) fn signed_quotient_64(x: u64, y: u64) -> u64
    ensures { result ≡ signed_quotient 64 x y }
{
    if y == 0 {
        return 0;
    }
    x.cast_signed()
        .wrapping_div(y.cast_signed())
        .cast_unsigned()
}

// A signed quotient of 32 bits.
#[inline(always)]
pub(crate) fn signed_quotient_32(x: u32, y: u32) -> u32
    ensures { result ≡ signed_quotient 32 x y }
{
    if y == 0 {
        return 0;
    }
    x.cast_signed()
        .wrapping_div(y.cast_signed())
        .cast_unsigned()
}

// A signed remainder of 64 bits.
#[inline(always)]
pub(crate) fn signed_remainder_64(x: u64, y: u64) -> u64
    ensures { result ≡ signed_remainder 64 x y }
{
    if y == 0 {
        return x;
    }
    x.cast_signed()
        .wrapping_rem(y.cast_signed())
        .cast_unsigned()
}

// A signed remainder of 32 bits.
#[inline(always)]
pub(crate) fn signed_remainder_32(x: u32, y: u32) -> u32
    ensures { result ≡ signed_remainder 32 x y }
{
    if y == 0 {
        return x;
    }
    x.cast_signed()
        .wrapping_rem(y.cast_signed())
        .cast_unsigned()
}

// A shift of 64 bits that keeps the sign.
#[inline(always)]
pub(crate) fn shifted_signed_64(x: u64, k: u64) -> u64
    requires { k < 64 }
    ensures { result ≡ shifted_signed 64 x k }
{
    (x.cast_signed() >> k).cast_unsigned()
}

// A shift of 32 bits that keeps the sign.
#[inline(always)]
pub(crate) fn shifted_signed_32(x: u32, k: u32) -> u32
    requires { k < 32 }
    ensures { result ≡ shifted_signed 32 x k }
{
    (x.cast_signed() >> k).cast_unsigned()
}

// Whether one number of 64 bits is below another, with their signs.
#[inline(always)]
pub(crate) fn is_below_64(x: u64, y: u64) -> bool
    ensures { result ≡ is_below 64 x y }
{
    x.cast_signed() < y.cast_signed()
}

// Whether one number of 32 bits is below another, with their signs.
#[inline(always)]
pub(crate) fn is_below_32(x: u32, y: u32) -> bool
    ensures { result ≡ is_below 32 x y }
{
    x.cast_signed() < y.cast_signed()
}

// The low 16, 32 or 64 bits.
#[inline(always)]
pub(crate) fn low_bits(bits: u32, x: u64) -> u64
    ensures { result ≡ low_bits bits x }
{
    match bits {
        16 => u64::from(low_16(x)),
        32 => u64::from(low_32(x)),
        _ => x,
    }
}

// The low 16, 32 or 64 bits with their octets in the other order.
#[inline(always)]
pub(crate) fn swapped_octets(bits: u32, x: u64) -> u64
    ensures { result ≡ swapped_octets bits x }
{
    match bits {
        16 => u64::from(low_16(x).swap_bytes()),
        32 => u64::from(low_32(x).swap_bytes()),
        _ => x.swap_bytes(),
    }
}

// An offset with its sign, in 64 bits.
#[inline(always)]
pub(crate) fn offset_word(insn: &Insn) -> u64
    ensures { result ≡ word insn.now.offset }
{
    i64::from(insn.offset).cast_unsigned()
}

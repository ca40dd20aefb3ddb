// The results of arithmetic and of loads, and which comparisons hold.
ghost use Rattle.std.specs.Prelude.{◌≡◌};
ghost use Rattle.bpf_mem.specs.Memory.{IsAccessSize};
ghost use Rattle.bpf_machine.specs.Words.{low, moved, result_of, comparison_holds, converted};
ghost use Rattle.bpf_machine.specs.Steps.{computed, is_taken, access_size, load_result};

use crate::words::{
    extended_8, extended_16, extended_32, is_below_32, is_below_64, low_32, low_bits, offset_word,
    shifted_signed_32, shifted_signed_64, short_8, short_16, signed_quotient_32,
    signed_quotient_64, signed_remainder_32, signed_remainder_64, swapped_octets,
};
use bpf_insn::Insn;
use bpf_insn::forms::{class, operation};
use bpf_insn::opcodes::{
    ADD, ALU64, AND, B, DIV, END, END_LE, H, JEQ, JGE, JGT, JLE, JLT, JMP, JNE, JSET, JSGE, JSGT,
    JSLT, LSH, MEMSX, MOD, MOV, MUL, NEG, OR, RSH, SUB, W, XOR,
};

// The result of MOV in 64 bits.
#[inline(always)]
fn moved_64(offset: u64, y: u64) -> u64
    ensures { result ≡ moved 64 offset y }
{
    match offset {
        8 => extended_8(y),
        16 => extended_16(y),
        32 => extended_32(y),
        _ => y,
    }
}

// The result of MOV in 32 bits.
#[inline(always)]
fn moved_32(offset: u64, y: u32) -> u32
    ensures { result ≡ moved 32 offset y }
{
    match offset {
        8 => short_8(y),
        16 => short_16(y),
        _ => y,
    }
}

// A quotient of 64 bits, with or without signs.
#[tactic(auto, unfolding(crate::specs::Words::result_of))]
#[inline(always)]
fn quotient_64(offset: u64, x: u64, y: u64) -> u64
    ensures { result ≡ result_of 64 DIV offset x y }
{
    if offset == 1 {
        signed_quotient_64(x, y)
    } else if y == 0 {
        0
    } else {
        x / y
    }
}

// A quotient of 32 bits, with or without signs.
#[tactic(auto, unfolding(crate::specs::Words::result_of))]
#[inline(always)]
fn quotient_32(offset: u64, x: u32, y: u32) -> u32
    ensures { result ≡ result_of 32 DIV offset x y }
{
    if offset == 1 {
        signed_quotient_32(x, y)
    } else if y == 0 {
        0
    } else {
        x / y
    }
}

// A remainder of 64 bits, with or without signs.
#[tactic(auto, unfolding(crate::specs::Words::result_of))]
#[inline(always)]
fn remainder_64(offset: u64, x: u64, y: u64) -> u64
    ensures { result ≡ result_of 64 MOD offset x y }
{
    if offset == 1 {
        signed_remainder_64(x, y)
    } else if y == 0 {
        x
    } else {
        x % y
    }
}

// A remainder of 32 bits, with or without signs.
#[tactic(auto, unfolding(crate::specs::Words::result_of))]
#[inline(always)]
fn remainder_32(offset: u64, x: u32, y: u32) -> u32
    ensures { result ≡ result_of 32 MOD offset x y }
{
    if offset == 1 {
        signed_remainder_32(x, y)
    } else if y == 0 {
        x
    } else {
        x % y
    }
}

// The result of an operation in 64 bits; the last one is ARSH.
#[tactic(auto, unfolding(crate::specs::Words::result_of))]
#[inline(always)]
fn result_64(operation: u8, offset: u64, x: u64, y: u64) -> u64
    ensures { result ≡ result_of 64 operation offset x y }
{
    match operation {
        ADD => x.wrapping_add(y),
        SUB => x.wrapping_sub(y),
        MUL => x.wrapping_mul(y),
        DIV => quotient_64(offset, x, y),
        OR => x | y,
        AND => x & y,
        LSH => x << (y % 64),
        RSH => x >> (y % 64),
        NEG => 0_u64.wrapping_sub(x),
        MOD => remainder_64(offset, x, y),
        XOR => x ^ y,
        MOV => moved_64(offset, y),
        _ => shifted_signed_64(x, y % 64),
    }
}

// The result of an operation in 32 bits; the last one is ARSH.
#[tactic(auto, unfolding(crate::specs::Words::result_of))]
#[inline(always)]
fn result_32(operation: u8, offset: u64, x: u32, y: u32) -> u32
    ensures { result ≡ result_of 32 operation offset x y }
{
    match operation {
        ADD => x.wrapping_add(y),
        SUB => x.wrapping_sub(y),
        MUL => x.wrapping_mul(y),
        DIV => quotient_32(offset, x, y),
        OR => x | y,
        AND => x & y,
        LSH => x << (y % 32),
        RSH => x >> (y % 32),
        NEG => 0_u32.wrapping_sub(x),
        MOD => remainder_32(offset, x, y),
        XOR => x ^ y,
        MOV => moved_32(offset, y),
        _ => shifted_signed_32(x, y % 32),
    }
}

// The result of END.
#[tactic(auto, unfolding(crate::specs::Words::converted))]
#[inline(always)]
fn converted(opcode: u8, bits: u32, x: u64) -> u64
    ensures { result ≡ converted opcode bits x }
{
    if opcode == END_LE {
        low_bits(bits, x)
    } else {
        swapped_octets(bits, x)
    }
}

// The result of an operation on the low 32 bits, in 64; the upper 32 bits are 0.
#[inline(always)]
fn result_low(operation: u8, offset: u64, x: u64, y: u64) -> u64
    ensures { result ≡ result_of 32 operation offset (low 32 x) (low 32 y) }
{
    u64::from(result_32(operation, offset, low_32(x), low_32(y)))
}

// The result of arithmetic on the destination and the second operand.
#[tactic(auto, unfolding(crate::specs::Steps::computed))]
#[inline(always)]
pub(crate) fn computed(insn: &Insn, x: u64, y: u64) -> u64
    ensures { result ≡ computed insn.now x y }
{
    let operation = operation(insn.opcode);
    if operation == END {
        return converted(insn.opcode, low_32(insn.imm), x);
    }
    let offset = offset_word(insn);
    if class(insn.opcode) == ALU64 {
        result_64(operation, offset, x, y)
    } else {
        result_low(operation, offset, x, y)
    }
}

// Whether a comparison of 64 bits holds; the last one is JSLE.
#[tactic(auto, unfolding(crate::specs::Words::comparison_holds))]
#[inline(always)]
fn comparison_64(operation: u8, x: u64, y: u64) -> bool
    ensures { result ≡ comparison_holds 64 operation x y }
{
    match operation {
        JEQ => x == y,
        JGT => x > y,
        JGE => x >= y,
        JSET => x & y != 0,
        JNE => x != y,
        JSGT => is_below_64(y, x),
        JSGE => !is_below_64(x, y),
        JLT => x < y,
        JLE => x <= y,
        JSLT => is_below_64(x, y),
        _ => !is_below_64(y, x),
    }
}

// Whether a comparison of 32 bits holds; the last one is JSLE.
#[tactic(auto, unfolding(crate::specs::Words::comparison_holds))]
#[inline(always)]
fn comparison_32(operation: u8, x: u32, y: u32) -> bool
    ensures { result ≡ comparison_holds 32 operation x y }
{
    match operation {
        JEQ => x == y,
        JGT => x > y,
        JGE => x >= y,
        JSET => x & y != 0,
        JNE => x != y,
        JSGT => is_below_32(y, x),
        JSGE => !is_below_32(x, y),
        JLT => x < y,
        JLE => x <= y,
        JSLT => is_below_32(x, y),
        _ => !is_below_32(y, x),
    }
}

// Whether a conditional jump is taken.
#[tactic(auto, unfolding(crate::specs::Steps::is_taken))]
#[inline(always)]
pub(crate) fn is_taken(insn: &Insn, x: u64, y: u64) -> bool
    ensures { result ≡ is_taken insn.now x y }
{
    let operation = operation(insn.opcode);
    if class(insn.opcode) == JMP {
        comparison_64(operation, x, y)
    } else {
        comparison_32(operation, low_32(x), low_32(y))
    }
}

// The number of octets of a load or a store.
#[inline(always)]
pub(crate) fn access_size(opcode: u8) -> usize
    ensures value { result ≡ access_size opcode }
    ensures size { IsAccessSize result }
{
    match opcode / 8 % 4 {
        W => 4,
        H => 2,
        B => 1,
        _ => 8,
    }
}

// The result of a load of a number.
#[tactic(auto, unfolding(crate::specs::Steps::load_result))]
#[inline(always)]
pub(crate) fn load_result(opcode: u8, n: u64) -> u64
    ensures { result ≡ load_result opcode n }
{
    if opcode / 32 != MEMSX {
        return n;
    }
    match access_size(opcode) {
        1 => extended_8(n),
        2 => extended_16(n),
        _ => extended_32(n),
    }
}

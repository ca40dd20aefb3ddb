//! The forms of instructions that this profile has, by opcode (RFC 9669, sections 3 to 5).
ghost use Rattle.std.specs.Prelude.{◌≡◌};
ghost use Rattle.bpf_insn.specs.Slots.{is_wide};
ghost use Rattle.bpf_insn.specs.Forms.{class, by_register, operation, is_alu, is_neg, is_end, is_condition, is_ja};
ghost use Rattle.bpf_insn.specs.Forms.{is_call, is_exit, is_load, is_signed_load, is_store, is_register_store};
ghost use Rattle.bpf_insn.specs.Forms.{is_opcode, has_target, writes_register};

use crate::opcodes::{
    ALU, ALU64, ARSH, CALL_JMP, END_BE, END_LE, END_SWAP, EXIT_JMP, JA_JMP, JA_JMP32, JEQ, JLT,
    JMP, JMP32, JSGE, JSLE, LD_IMM64, LDX_B, LDX_DW, LDX_H, LDX_SB, LDX_SH, LDX_SW, LDX_W, NEG,
    NEG_ALU, NEG_ALU64, ST_B, ST_DW, ST_H, ST_W, STX_B, STX_DW, STX_H, STX_W,
};

/// The class of an opcode, one of those in `opcodes`.
pub fn class(opcode: u8) -> u8
    ensures { result ≡ class opcode }
{
    opcode % 8
}

/// Whether the second operand of arithmetic or of a comparison is a register, and not the immediate.
pub fn by_register(opcode: u8) -> bool
    ensures { result ≡ by_register opcode }
{
    opcode / 8 % 2 == 1
}

/// The operation of arithmetic or of a jump, one of those in `opcodes`.
pub fn operation(opcode: u8) -> u8
    ensures { result ≡ operation opcode }
{
    opcode / 16
}

// Arithmetic with two operands.
pub(crate) fn is_alu(opcode: u8) -> bool
    ensures { result ≡ is_alu opcode }
{
    let operation = operation(opcode);
    (class(opcode) == ALU || class(opcode) == ALU64) && (operation <= ARSH && operation != NEG)
}

// NEG, on 32 bits or on 64.
pub(crate) fn is_neg(opcode: u8) -> bool
    ensures { result ≡ is_neg opcode }
{
    opcode == NEG_ALU || opcode == NEG_ALU64
}

// A conversion of the order of octets.
pub(crate) fn is_end(opcode: u8) -> bool
    ensures { result ≡ is_end opcode }
{
    opcode == END_LE || opcode == END_BE || opcode == END_SWAP
}

// A conditional jump.
pub(crate) fn is_condition(opcode: u8) -> bool
    ensures { result ≡ is_condition opcode }
{
    let operation = operation(opcode);
    (class(opcode) == JMP || class(opcode) == JMP32)
        && (JEQ <= operation && operation <= JSGE || JLT <= operation && operation <= JSLE)
}

// JA, by the offset or by the immediate.
pub(crate) fn is_ja(opcode: u8) -> bool
    ensures { result ≡ is_ja opcode }
{
    opcode == JA_JMP || opcode == JA_JMP32
}

// A call of a helper.
pub(crate) fn is_call(opcode: u8) -> bool
    ensures { result ≡ is_call opcode }
{
    opcode == CALL_JMP
}

// The end of the program.
pub(crate) fn is_exit(opcode: u8) -> bool
    ensures { result ≡ is_exit opcode }
{
    opcode == EXIT_JMP
}

// The 64-bit load, which takes two slots.
pub(crate) fn is_wide(opcode: u8) -> bool
    ensures { result ≡ is_wide opcode }
{
    opcode == LD_IMM64
}

// A load from memory, extended by zeros.
pub(crate) fn is_load(opcode: u8) -> bool
    ensures { result ≡ is_load opcode }
{
    (opcode == LDX_W || opcode == LDX_H) || (opcode == LDX_B || opcode == LDX_DW)
}

// A load from memory, extended by the sign.
pub(crate) fn is_signed_load(opcode: u8) -> bool
    ensures { result ≡ is_signed_load opcode }
{
    opcode == LDX_SW || opcode == LDX_SH || opcode == LDX_SB
}

// A store of the immediate.
pub(crate) fn is_store(opcode: u8) -> bool
    ensures { result ≡ is_store opcode }
{
    (opcode == ST_W || opcode == ST_H) || (opcode == ST_B || opcode == ST_DW)
}

// A store of a register.
pub(crate) fn is_register_store(opcode: u8) -> bool
    ensures { result ≡ is_register_store opcode }
{
    (opcode == STX_W || opcode == STX_H) || (opcode == STX_B || opcode == STX_DW)
}

// Whether the opcode is one of the profile's.
pub(crate) fn is_opcode(opcode: u8) -> bool
    ensures { result ≡ is_opcode opcode }
{
    is_alu(opcode)
        || is_neg(opcode)
        || is_end(opcode)
        || is_condition(opcode)
        || is_ja(opcode)
        || is_call(opcode)
        || is_exit(opcode)
        || is_wide(opcode)
        || is_load(opcode)
        || is_signed_load(opcode)
        || is_store(opcode)
        || is_register_store(opcode)
}

// Whether the instruction has a target.
pub(crate) fn has_target(opcode: u8) -> bool
    ensures { result ≡ has_target opcode }
{
    is_condition(opcode) || is_ja(opcode)
}

// Whether the instruction writes its destination.
pub(crate) fn writes_register(opcode: u8) -> bool
    ensures { result ≡ writes_register opcode }
{
    is_alu(opcode)
        || is_neg(opcode)
        || is_end(opcode)
        || is_load(opcode)
        || is_signed_load(opcode)
        || is_wide(opcode)
}

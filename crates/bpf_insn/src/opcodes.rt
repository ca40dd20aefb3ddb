//! The numbers of instructions (RFC 9669, sections 3 to 5).
//!
//! An opcode is one octet. Its low three bits are the class. In arithmetic and jumps the high four bits are the
//! operation, and the bit between says whether the second operand is a register; in loads and stores the high three
//! bits are the mode, and the two bits between are the size.

/// Classes (section 3.3): non-standard loads, of which only the 64-bit load is here.
pub const LD: u8 = 0x0;

/// Loads into a register.
pub const LDX: u8 = 0x1;

/// Stores of the immediate.
pub const ST: u8 = 0x2;

/// Stores of a register.
pub const STX: u8 = 0x3;

/// Arithmetic on 32 bits.
pub const ALU: u8 = 0x4;

/// Jumps that compare 64 bits.
pub const JMP: u8 = 0x5;

/// Jumps that compare 32 bits.
pub const JMP32: u8 = 0x6;

/// Arithmetic on 64 bits.
pub const ALU64: u8 = 0x7;

/// Operations of arithmetic (section 4.1).
pub const ADD: u8 = 0x0;

pub const SUB: u8 = 0x1;

pub const MUL: u8 = 0x2;

pub const DIV: u8 = 0x3;

pub const OR: u8 = 0x4;

pub const AND: u8 = 0x5;

pub const LSH: u8 = 0x6;

pub const RSH: u8 = 0x7;

pub const NEG: u8 = 0x8;

pub const MOD: u8 = 0x9;

pub const XOR: u8 = 0xa;

pub const MOV: u8 = 0xb;

pub const ARSH: u8 = 0xc;

/// The operation that changes the order of octets (section 4.2).
pub const END: u8 = 0xd;

/// Operations of jumps (section 4.3).
pub const JA: u8 = 0x0;

pub const JEQ: u8 = 0x1;

pub const JGT: u8 = 0x2;

pub const JGE: u8 = 0x3;

pub const JSET: u8 = 0x4;

pub const JNE: u8 = 0x5;

pub const JSGT: u8 = 0x6;

pub const JSGE: u8 = 0x7;

pub const CALL: u8 = 0x8;

pub const EXIT: u8 = 0x9;

pub const JLT: u8 = 0xa;

pub const JLE: u8 = 0xb;

pub const JSLT: u8 = 0xc;

pub const JSLE: u8 = 0xd;

/// The mode of loads that extend by the sign (section 5).
pub const MEMSX: u8 = 0x4;

/// Sizes of loads and stores (section 5): four octets, two, one and eight.
pub const W: u8 = 0x0;

pub const H: u8 = 0x1;

pub const B: u8 = 0x2;

pub const DW: u8 = 0x3;

/// Whole opcodes, named by operation and class: the 64-bit load, which takes two slots (section 3.2).
pub const LD_IMM64: u8 = 0x18;

/// NEG has no second operand.
pub const NEG_ALU: u8 = 0x84;

pub const NEG_ALU64: u8 = 0x87;

/// To little-endian, to big-endian, and to the other order (section 4.2).
pub const END_LE: u8 = 0xd4;

pub const END_BE: u8 = 0xdc;

pub const END_SWAP: u8 = 0xd7;

/// JA by the offset, and by the immediate (section 4.3).
pub const JA_JMP: u8 = 0x05;

pub const JA_JMP32: u8 = 0x06;

/// A call of a helper by its number (section 4.3.1).
pub const CALL_JMP: u8 = 0x85;

pub const EXIT_JMP: u8 = 0x95;

/// Loads of four octets, two, one and eight, extended by zeros (section 5.1).
pub const LDX_W: u8 = 0x61;

pub const LDX_H: u8 = 0x69;

pub const LDX_B: u8 = 0x71;

pub const LDX_DW: u8 = 0x79;

/// Loads of four octets, two and one, extended by the sign (section 5.2).
pub const LDX_SW: u8 = 0x81;

pub const LDX_SH: u8 = 0x89;

pub const LDX_SB: u8 = 0x91;

/// Stores of the immediate.
pub const ST_W: u8 = 0x62;

pub const ST_H: u8 = 0x6a;

pub const ST_B: u8 = 0x72;

pub const ST_DW: u8 = 0x7a;

/// Stores of a register.
pub const STX_W: u8 = 0x63;

pub const STX_H: u8 = 0x6b;

pub const STX_B: u8 = 0x73;

pub const STX_DW: u8 = 0x7b;

// One instruction.

/// The fields of one instruction. `dst` and `src` are registers, 0 to 10. `imm` is the immediate extended by its sign,
/// or the whole number of a 64-bit load.
#[derive(Clone, Copy, Debug, PartialEq, Eq)]
pub struct Insn {
    pub opcode: u8,
    pub dst: u8,
    pub src: u8,
    pub offset: i16,
    pub imm: u64,
}

// One slot, undecoded (RFC 9669, section 3.1).
ghost use Rattle.std.specs.Prelude.{◌≡◌, ◌+◌, ◌*◌, ◌≤◌, length};

use crate::limits::SLOT_SIZE;

// The fields of a slot, little-endian; the offset and the immediate are without a sign.
#[derive(Clone, Copy)]
pub(crate) struct Slot {
    pub opcode: u8,
    pub dst: u8,
    pub src: u8,
    pub offset: u16,
    pub imm: u32,
}

impl Slot {
    ghost use Rattle.bpf_insn.specs.Slots.{opcode_of, dst_of, src_of, raw_offset, raw_imm};

    // Reads slot i, from 0.
    pub(crate) fn read(code: &[u8], i: usize) -> Slot
        requires { SLOT_SIZE * i + SLOT_SIZE ≤ length code.now }
        ensures opcode { result.opcode ≡ opcode_of code.now i }
        ensures dst { result.dst ≡ dst_of code.now i }
        ensures src { result.src ≡ src_of code.now i }
        ensures offset { result.offset ≡ raw_offset code.now i }
        ensures imm { result.imm ≡ raw_imm code.now i }
    {
        let at = SLOT_SIZE * i;
        let registers = code[at + 1];
        Slot {
            opcode: code[at],
            dst: registers % 16,
            src: registers / 16,
            offset: u16::from_le_bytes([code[at + 2], code[at + 3]]),
            imm: u32::from_le_bytes([code[at + 4], code[at + 5], code[at + 6], code[at + 7]]),
        }
    }
}

// Slots as instructions.
ghost use Rattle.std.specs.Prelude.{◌≡◌, ◌<◌, ◌+◌, ◌*◌, ◌%◌, ◌^◌, length, IfOk};
ghost use Rattle.bpf_insn.specs.declared.limits.TheConstants.{SLOT_SIZE};
ghost use Rattle.bpf_insn.specs.Slots.{slots, raw_imm, insn_at};
ghost use Rattle.bpf_insn.specs.Decoded.{AreInsns};

use crate::forms::is_wide;
use crate::insn::Insn;
use crate::limits::SLOT_SIZE;
use crate::slot::Slot;
use std::alloc::{AllocError, Global};

// The immediate of the slot after slot i, or 0 after the last slot.
fn imm_after(code: &[u8], i: usize) -> u32
    requires whole { length code.now ≡ SLOT_SIZE * slots code.now }
    requires within { i < slots code.now }
    ensures { result ≡ raw_imm code.now (i + 1) }
{
    if i + 1 < code.len() / SLOT_SIZE {
        Slot::read(code, i + 1).imm
    } else {
        0
    }
}

// The instruction at slot i, also if it is the second slot of a 64-bit load.
fn insn_at(code: &[u8], i: usize) -> Insn
    requires whole { length code.now ≡ SLOT_SIZE * slots code.now }
    requires within { i < slots code.now }
    ensures value { result ≡ insn_at code.now i }
    ensures low_half { result.imm % 2 ^ 32 ≡ raw_imm code.now i }
{
    let slot = Slot::read(code, i);
    let imm = if is_wide(slot.opcode) {
        u64::from(slot.imm) + (1 << 32) * u64::from(imm_after(code, i))
    } else {
        i64::from(slot.imm.cast_signed()).cast_unsigned()
    };
    Insn {
        opcode: slot.opcode,
        dst: slot.dst,
        src: slot.src,
        offset: slot.offset.cast_signed(),
        imm,
    }
}

// The instructions of all slots. The second slot of a 64-bit load has one as well, which no run takes.
pub(crate) fn decode_all(alloc: Global, code: &[u8]) -> Result<Vec<Insn>, AllocError>
    requires { length code.now ≡ SLOT_SIZE * slots code.now }
    ensures { IfOk result (λ insns. AreInsns code.now (slots code.now) insns.items) }
{
    let count = code.len() / SLOT_SIZE;
    let mut insns = Vec::with_capacity(alloc, count)?;
    for i in 0..count {
        insns.push(insn_at(code, i))?;
    }
    Ok(insns)
}

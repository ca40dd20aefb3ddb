// The second slots of 64-bit loads.
ghost use Rattle.std.specs.Prelude.{◌≡◌, IfOk};
ghost use Rattle.bpf_insn.specs.Slots.{slots};
ghost use Rattle.bpf_insn.specs.Seconds.{AreSeconds};

use crate::forms::is_wide;
use crate::limits::SLOT_SIZE;
use std::alloc::{AllocError, Global};

// For each slot, whether it is a second one. A 64-bit load takes the slot after it, whatever that holds.
pub(crate) fn find_second_slots(alloc: Global, code: &[u8]) -> Result<Vec<bool>, AllocError>
    ensures { IfOk result (λ seconds. AreSeconds code.now (slots code.now) seconds.items) }
{
    let count = code.len() / SLOT_SIZE;
    let mut seconds = Vec::with_capacity(alloc, count)?;
    let mut second = false;
    for i in 0..count {
        seconds.push(second)?;
        second = !second && is_wide(code[SLOT_SIZE * i]);
    }
    Ok(seconds)
}

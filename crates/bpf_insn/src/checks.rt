// The checks of bytecode, in their order: the length, each instruction, the end.
ghost use Rattle.std.specs.Prelude.{◌≡◌, ◌<◌, ◌≤◌, ◌==◌, if◌then◌else◌, IfOk};
ghost use Rattle.std.specs.Int.{w16, w32, cast_signed};
ghost use Rattle.bpf_insn.specs.Helpers.{allows};
ghost use Rattle.bpf_insn.specs.Slots.{slots};
ghost use Rattle.bpf_insn.specs.Forms.{is_alu_offset, has_one_operand, are_fields};
ghost use Rattle.bpf_insn.specs.Loading.{has_second, is_start, target, slot_fault, first_slot_fault, starts, end_fault};
ghost use Rattle.bpf_insn.specs.Loading.{load_fault};
ghost use Rattle.bpf_insn.specs.Seconds.{AreSeconds};

use crate::fault::{LoadFault, LoadKind};
use crate::forms::{
    by_register, class, has_target, is_alu, is_call, is_condition, is_end, is_exit, is_ja, is_neg,
    is_opcode, is_store, is_wide, operation, writes_register,
};
use crate::helpers::HelperSet;
use crate::limits::{FRAME_POINTER, MAX_SLOTS, SLOT_SIZE};
use crate::opcodes::{ALU64, DIV, JA_JMP, JA_JMP32, MOD, MOV};
use crate::second_slots::find_second_slots;
use crate::slot::Slot;
use std::alloc::{AllocError, Global};

// Whether arithmetic may have an offset: 1 is signed DIV and MOD, a width is MOV that extends by the sign.
fn is_alu_offset(opcode: u8, offset: u16) -> bool
    ensures { result ≡ is_alu_offset opcode offset }
{
    let operation = operation(opcode);
    offset == 0
        || (operation == DIV || operation == MOD) && offset == 1
        || (operation == MOV && by_register(opcode))
            && (offset == 8 || offset == 16 || offset == 32 && class(opcode) == ALU64)
}

// Whether the operand that the form doesn't use is 0.
fn has_one_operand(opcode: u8, src: u8, imm: u32) -> bool
    ensures { result ≡ has_one_operand opcode src imm }
{
    if by_register(opcode) {
        imm == 0
    } else {
        src == 0
    }
}

// Whether the fields of a slot are those of its form.
fn are_fields(slot: Slot) -> bool
    ensures { result ≡ are_fields slot.opcode slot.dst slot.src slot.offset slot.imm }
{
    let Slot {
        opcode,
        dst,
        src,
        offset,
        imm,
    } = slot;
    if is_alu(opcode) {
        has_one_operand(opcode, src, imm) && is_alu_offset(opcode, offset)
    } else if is_neg(opcode) {
        src == 0 && offset == 0 && imm == 0
    } else if is_end(opcode) {
        src == 0 && offset == 0 && (imm == 16 || imm == 32 || imm == 64)
    } else if is_condition(opcode) {
        has_one_operand(opcode, src, imm)
    } else if opcode == JA_JMP {
        dst == 0 && src == 0 && imm == 0
    } else if opcode == JA_JMP32 || is_call(opcode) {
        dst == 0 && src == 0 && offset == 0
    } else if is_exit(opcode) {
        (dst == 0 && src == 0) && (offset == 0 && imm == 0)
    } else if is_wide(opcode) {
        src == 0 && offset == 0
    } else if is_store(opcode) {
        src == 0
    } else {
        imm == 0
    }
}

// Whether a 64-bit load at slot i has its second slot.
fn has_second(code: &[u8], i: usize) -> bool
    requires { i < slots code.now }
    ensures { result ≡ has_second code.now i }
{
    if i + 1 >= code.len() / SLOT_SIZE {
        return false;
    }
    let second = Slot::read(code, i + 1);
    (second.opcode == 0 && second.dst == 0) && (second.src == 0 && second.offset == 0)
}

// The distance of a jump if it is taken: JA of class JMP32 has it in the immediate.
fn distance(slot: Slot) -> i64
    ensures { result ≡ (if slot.opcode == JA_JMP32 then cast_signed w32 slot.imm else cast_signed w16 slot.offset) }
{
    if slot.opcode == JA_JMP32 {
        i64::from(slot.imm.cast_signed())
    } else {
        i64::from(slot.offset.cast_signed())
    }
}

// The slot at which the program goes on if the jump at slot i is taken.
fn target(code: &[u8], i: usize) -> i64
    requires within { i < slots code.now }
    requires few { slots code.now ≤ MAX_SLOTS }
    ensures { result ≡ target code.now i }
{
    i as i64 + 1 + distance(Slot::read(code, i))
}

// Whether an instruction begins at slot `slot`, if there is such a slot.
fn is_start(code: &[u8], seconds: &[bool], slot: i64) -> bool
    requires { AreSeconds code.now (slots code.now) seconds.now }
    ensures { result ≡ is_start code.now slot }
{
    if slot < 0 {
        return false;
    }
    let slot = slot as usize;
    slot < seconds.len() && !seconds[slot]
}

// The first fault of the instruction at slot i.
fn slot_fault(code: &[u8], seconds: &[bool], allowed: &HelperSet, i: usize) -> Option<LoadKind>
    requires within { i < slots code.now }
    requires few { slots code.now ≤ MAX_SLOTS }
    requires seconds { AreSeconds code.now (slots code.now) seconds.now }
    ensures { result ≡ slot_fault (allows allowed.now) code.now i }
{
    let slot = Slot::read(code, i);
    if !is_opcode(slot.opcode) {
        Some(LoadKind::Opcode)
    } else if slot.dst > FRAME_POINTER || slot.src > FRAME_POINTER {
        Some(LoadKind::Register)
    } else if !are_fields(slot) {
        Some(LoadKind::Reserved)
    } else if is_wide(slot.opcode) && !has_second(code, i) {
        Some(LoadKind::WidePair)
    } else if has_target(slot.opcode) && !is_start(code, seconds, target(code, i)) {
        Some(LoadKind::Jump)
    } else if writes_register(slot.opcode) && slot.dst == FRAME_POINTER {
        Some(LoadKind::WriteR10)
    } else if is_call(slot.opcode) && !allowed.has(slot.imm) {
        Some(LoadKind::Helper(slot.imm))
    } else {
        None
    }
}

// The first fault of an instruction, slot by slot.
fn first_slot_fault(code: &[u8], seconds: &[bool], allowed: &HelperSet) -> Option<LoadFault>
    requires few { slots code.now ≤ MAX_SLOTS }
    requires seconds { AreSeconds code.now (slots code.now) seconds.now }
    ensures { result ≡ first_slot_fault (allows allowed.now) code.now (starts code.now) }
{
    for i in 0..seconds.len() {
        if seconds[i] {
            continue;
        }
        if let Some(kind) = slot_fault(code, seconds, allowed, i) {
            return Some(LoadFault {
                kind,
                slot: i as u32,
            });
        }
    }
    None
}

// The fault of the end, unless the last instruction is EXIT or JA.
fn end_fault(code: &[u8], seconds: &[bool]) -> Option<LoadFault>
    requires some { 1 ≤ slots code.now }
    requires few { slots code.now ≤ MAX_SLOTS }
    requires seconds { AreSeconds code.now (slots code.now) seconds.now }
    ensures { result ≡ end_fault code.now }
{
    let end = seconds.len() - 1;
    let last = if seconds[end] { end - 1 } else { end };
    let opcode = code[SLOT_SIZE * last];
    if is_exit(opcode) || is_ja(opcode) {
        None
    } else {
        Some(LoadFault {
            kind: LoadKind::OpenEnd,
            slot: last as u32,
        })
    }
}

// The first fault of bytecode. An error is a want of memory.
#[tactic(auto, unfolding(crate::specs::Loading::load_fault))]
pub(crate) fn load_fault(
    alloc: Global,
    code: &[u8],
    allowed: &HelperSet,
) -> Result<Option<LoadFault>, AllocError>
    ensures { IfOk result (λ fault. fault ≡ load_fault (allows allowed.now) code.now) }
{
    if code.is_empty() || code.len() % SLOT_SIZE != 0 {
        return Ok(Some(LoadFault {
            kind: LoadKind::Length,
            slot: 0,
        }));
    }
    if code.len() / SLOT_SIZE > MAX_SLOTS {
        return Ok(Some(LoadFault {
            kind: LoadKind::TooLong,
            slot: 0,
        }));
    }
    let seconds = find_second_slots(alloc, code)?;
    match first_slot_fault(code, &seconds, allowed) {
        Some(fault) => Ok(Some(fault)),
        None => Ok(end_fault(code, &seconds)),
    }
}

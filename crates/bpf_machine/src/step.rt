// One instruction.
ghost use Rattle.std.specs.Prelude.{◌≡◌, ℕ, List, ◌<◌, ◌≤◌, ◌+◌, ◌%◌, ◌^◌, IsTrue};
ghost use Rattle.bpf_mem.specs.Memory.{Memory, load, store};
ghost use Rattle.bpf_insn.specs.Slots.{word, raw_imm, insn_at};
ghost use Rattle.bpf_insn.specs.Sound.{IsSound};
ghost use Rattle.bpf_insn.specs.Loading.{begins};
ghost use Rattle.bpf_machine.specs.Steps.{reg, operand, computed, access_address, jump_target, access_size, set_step};
ghost use Rattle.bpf_machine.specs.Steps.{jump_step, load_step, store_step, insn_step, take_step};
ghost use Rattle.bpf_machine.specs.Does.{Does, machine};

use crate::compute::{access_size, computed, is_taken, load_result};
use crate::words::{low_32, offset_word};
use bpf_insn::forms::{by_register, class, operation};
use bpf_insn::limits::{FRAME_POINTER, MAX_SLOTS};
use bpf_insn::opcodes::{ALU, ALU64, CALL, EXIT, JA, JMP, LD, LDX, ST, STX};
use bpf_insn::{Code, Insn};
use bpf_mem::Memory;

// What an instruction did, beside what it did to registers and memory.
#[derive(Clone, Copy)]
pub(crate) enum Step {
    // The program goes on at a slot.
    Goes(u64),
    // The program ended with r0.
    Ends(u64),
    // A load or a store was outside memory.
    Faults,
    // A helper is called by its number.
    Calls(u32),
}

// The second operand: a register, or the immediate.
#[inline(always)]
fn operand(insn: &Insn, regs: &[u64; 11]) -> u64
    requires { insn.now.src ≤ FRAME_POINTER }
    ensures { result ≡ operand regs.now insn.now }
{
    if by_register(insn.opcode) {
        regs[usize::from(insn.src)]
    } else {
        insn.imm
    }
}

// An address: a base and the offset, modulo 2^64.
#[inline(always)]
fn access_address(insn: &Insn, base: u64) -> u64
    ensures { result ≡ (base + word insn.now.offset) % 2 ^ 64 }
{
    base.wrapping_add(offset_word(insn))
}

// The slot at a distance from the slot after a jump.
#[inline(always)]
fn jump_target(slot: u64, distance: u64) -> u64
    requires { slot < MAX_SLOTS }
    ensures { result ≡ jump_target slot distance }
{
    (slot + 1).wrapping_add(distance)
}

// A jump, a call or an end. The offset is read only where a jump is taken, so that a conditional jump stays a branch,
// which the processor guesses: read before, it would become a conditional move, which waits for the comparison.
#[tactic(auto, unfolding(crate::specs::Steps::jump_step))]
#[inline(always)]
fn jump(insn: &Insn, regs: &[u64; 11], slot: u64) -> Step
    requires slot { slot < MAX_SLOTS }
    requires dst { insn.now.dst ≤ FRAME_POINTER }
    requires src { insn.now.src ≤ FRAME_POINTER }
    ensures { (m : Memory) → Does (jump_step (machine regs.now m slot) insn.now) result regs.now regs.now m m }
{
    match operation(insn.opcode) {
        JA if class(insn.opcode) == JMP => Step::Goes(jump_target(slot, offset_word(insn))),
        JA => Step::Goes(jump_target(slot, insn.imm)),
        CALL => Step::Calls(low_32(insn.imm)),
        EXIT => Step::Ends(regs[0]),
        _ if is_taken(insn, regs[usize::from(insn.dst)], operand(insn, regs)) => {
            Step::Goes(jump_target(slot, offset_word(insn)))
        }
        _ => Step::Goes(slot + 1),
    }
}

// A load from memory.
#[inline(always)]
fn load(insn: &Insn, regs: &mut [u64; 11], slot: u64, memory: &Memory<'_>) -> Step
    requires slot { slot < MAX_SLOTS }
    requires dst { insn.now.dst ≤ FRAME_POINTER }
    requires src { insn.now.src ≤ FRAME_POINTER }
    ensures { let at = access_address regs.old insn.now.src insn.now in
        let loaded = load memory.now at (access_size insn.now.opcode) in
        let did = load_step (machine regs.old memory.now slot) insn.now loaded in
        Does did result regs.old regs.new memory.now memory.now }
{
    let at = access_address(insn, regs[usize::from(insn.src)]);
    match memory.load(at, access_size(insn.opcode)) {
        Some(n) => {
            regs[usize::from(insn.dst)] = load_result(insn.opcode, n);
            Step::Goes(slot + 1)
        }
        None => Step::Faults,
    }
}

// A store of a value into memory.
#[inline(always)]
fn store(insn: &Insn, base: u64, value: u64, slot: u64, memory: &mut Memory<'_>) -> Step
    requires { slot < MAX_SLOTS }
    ensures { let at = (base + word insn.now.offset) % 2 ^ 64 in
        let stored = store memory.old at (access_size insn.now.opcode) value in
        (regs : List ℕ)
        → Does (store_step (machine regs memory.old slot) stored) result regs regs memory.old memory.new }
{
    if memory.store(access_address(insn, base), access_size(insn.opcode), value) {
        Step::Goes(slot + 1)
    } else {
        Step::Faults
    }
}

// Arithmetic.
#[inline(always)]
fn arithmetic(insn: &Insn, regs: &mut [u64; 11], slot: u64) -> Step
    requires slot { slot < MAX_SLOTS }
    requires dst { insn.now.dst ≤ FRAME_POINTER }
    requires src { insn.now.src ≤ FRAME_POINTER }
    ensures { let n = computed insn.now (reg regs.old insn.now.dst) (operand regs.old insn.now) in
        (m : Memory)
        → Does (set_step (machine regs.old m slot) insn.now.dst n (slot + 1)) result regs.old regs.new m m }
{
    let dst = usize::from(insn.dst);
    let y = operand(insn, regs);
    regs[dst] = computed(insn, regs[dst], y);
    Step::Goes(slot + 1)
}

// One instruction, whose opcode is given beside it.
#[inline(always)]
fn take_insn(
    opcode: u8,
    insn: &Insn,
    regs: &mut [u64; 11],
    slot: u64,
    memory: &mut Memory<'_>,
) -> Step
    requires opcode { opcode ≡ insn.now.opcode }
    requires slot { slot < MAX_SLOTS }
    requires dst { insn.now.dst ≤ FRAME_POINTER }
    requires src { insn.now.src ≤ FRAME_POINTER }
    ensures { let did = insn_step insn.now (machine regs.old memory.old slot) in
        Does did result regs.old regs.new memory.old memory.new }
{
    let dst = usize::from(insn.dst);
    let src = usize::from(insn.src);
    match class(opcode) {
        LD => {
            regs[dst] = insn.imm;
            Step::Goes(slot + 2)
        }
        LDX => load(insn, regs, slot, memory),
        ST => store(insn, regs[dst], insn.imm, slot, memory),
        STX => store(insn, regs[dst], regs[src], slot, memory),
        ALU | ALU64 => arithmetic(insn, regs, slot),
        _ => jump(insn, regs, slot),
    }
}

// A match with an arm for each opcode that is listed. In its arm an opcode is a constant, so the compiler makes code
// for that opcode alone, and one jump leads to it. An opcode that isn't listed is taken as well, but slower. With the
// least and the greatest octet listed, that jump needs no test of its range.
macro_rules! match_opcodes {
    ($insn:ident, $regs:ident, $slot:ident, $memory:ident; $($opcode:literal)*) => {
        match $insn.opcode {
            $($opcode => take_insn($opcode, $insn, $regs, $slot, $memory),)*
            _ => take_insn($insn.opcode, $insn, $regs, $slot, $memory),
        }
    };
}

// One instruction, by its opcode; all opcodes of the profile are listed, and 0x00 and 0xff for the range alone.
#[inline(always)]
fn take_by_opcode(insn: &Insn, regs: &mut [u64; 11], slot: u64, memory: &mut Memory<'_>) -> Step
    requires slot { slot < MAX_SLOTS }
    requires dst { insn.now.dst ≤ FRAME_POINTER }
    requires src { insn.now.src ≤ FRAME_POINTER }
    ensures { let did = insn_step insn.now (machine regs.old memory.old slot) in
        Does did result regs.old regs.new memory.old memory.new }
{
    match_opcodes!(insn, regs, slot, memory;
        0x00 0x18
        0x61 0x69 0x71 0x79 0x81 0x89 0x91
        0x62 0x6a 0x72 0x7a
        0x63 0x6b 0x73 0x7b
        0x04 0x0c 0x14 0x1c 0x24 0x2c 0x34 0x3c 0x44 0x4c 0x54 0x5c 0x64 0x6c
        0x74 0x7c 0x84 0x94 0x9c 0xa4 0xac 0xb4 0xbc 0xc4 0xcc 0xd4 0xdc
        0x05 0x15 0x1d 0x25 0x2d 0x35 0x3d 0x45 0x4d 0x55 0x5d 0x65 0x6d 0x75
        0x7d 0x85 0x95 0xa5 0xad 0xb5 0xbd 0xc5 0xcd 0xd5 0xdd
        0x06 0x16 0x1e 0x26 0x2e 0x36 0x3e 0x46 0x4e 0x56 0x5e 0x66 0x6e 0x76
        0x7e 0xa6 0xae 0xb6 0xbe 0xc6 0xce 0xd6 0xde
        0x07 0x0f 0x17 0x1f 0x27 0x2f 0x37 0x3f 0x47 0x4f 0x57 0x5f 0x67 0x6f
        0x77 0x7f 0x87 0x97 0x9f 0xa7 0xaf 0xb7 0xbf 0xc7 0xcf 0xd7 0xff
    )
}

// The instruction at a slot.
#[inline(always)]
pub(crate) fn take_step(
    code: &Code,
    regs: &mut [u64; 11],
    slot: u64,
    memory: &mut Memory<'_>,
) -> Step
    requires slot { slot < MAX_SLOTS }
    requires begins { IsTrue (begins code.now slot) }
    ensures low_half { (insn_at code.now slot).imm % 2 ^ 32 ≡ raw_imm code.now slot }
    ensures sound { IsSound code.now slot }
    ensures does { let did = take_step code.now (machine regs.old memory.old slot) in
        Does did result regs.old regs.new memory.old memory.new }
{
    let insn = code.get(slot as u32);
    take_by_opcode(insn, regs, slot, memory)
}

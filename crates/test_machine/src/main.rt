//! Runs each row of a table of instructions, and prints the rows that end otherwise than they say, and the number of
//! rows. The word is FILE, the table.
//!
//! The table has each opcode of the profile with operands at the edges. bench/test_machine/rows.rs writes it from the
//! text of RFC 9669 and not from this repository's definitions; its head says what a line is. The program promises
//! nothing except to be safe. Beside it, `counter` runs code over a world that borrows what it writes.
#![tactic(auto)]

ghost use Rattle.std.specs.Prelude.{◌≡◌, ℕ, ◌<◌, ◌==◌, IfSome};
ghost use Rattle.bpf_insn.specs.Helpers.{allows};

pub mod counter;

use anyhow::{Context, Result};
use bpf_insn::opcodes::LD_IMM64;
use bpf_insn::{HelperSet, load};
use bpf_machine::{Called, Cause, End, Helpers, run};
use bpf_mem::{Memory, Room};
use std::alloc::Global;
use std::rt::Files;
use std::{env, fs};

// Helper 1 adds r1 and r2.
#[derive(Drop)]
struct Sums;

impl Helpers for Sums {
    ghost use Rattle.std.specs.Prelude.{ℕ, ◌+◌, ◌%◌, ◌^◌, ◌==◌, slice_index};
    ghost use Rattle.bpf_machine.specs.Running.{CallResult};
    ghost use Rattle.bpf_machine.specs.declared.world.Called.TheVariants.{Value};

    ghost State = { Unit {0} };

    ghost state = { λ _. tt };

    ghost allowed = { λ _ n. n == 1 };

    ghost helps = { λ n args memory world.
        let sum = (slice_index args 0 + slice_index args 1) % 2 ^ 64 in
        record { called = Value sum; memory = memory; world = world } };

    ghost Names = { Unit {0} };

    ghost names = { λ _. tt };

    fn call(&mut self, _number: u32, args: [u64; 5], _memory: &mut Memory<'_>) -> Called {
        Called::Value(args[0].wrapping_add(args[1]))
    }
}

// The helpers that a world of sums allows.
fn helpers() -> HelperSet
    ensures { (n : ℕ) → allows result n ≡ (n == 1) }
{
    HelperSet::none().with(1)
}

// The value of a hexadecimal digit.
fn digit(octet: u8) -> Option<u8>
    ensures { IfSome result (λ d. d < 16) }
{
    match octet {
        b'0'..=b'9' => Some(octet - b'0'),
        b'a'..=b'f' => Some(octet - b'a' + 10),
        _ => None,
    }
}

// The number in hexadecimal digits.
fn number(text: &str) -> Option<u64> {
    let mut sum: u64 = 0;
    for octet in text.as_bytes() {
        sum = sum.checked_mul(16)?.checked_add(u64::from(digit(*octet)?))?;
    }
    Some(sum)
}

// The octet of two hexadecimal digits.
fn octet_of(high: u8, low: u8) -> Option<u8> {
    Some(digit(high)? * 16 + digit(low)?)
}

// Appends the octets in hexadecimal digits.
fn push_octets(code: &mut Vec<u8>, text: &str) -> Result<()> {
    for pair in text.as_bytes().chunks(2) {
        let [high, low] = pair else {
            anyhow::bail!("half an octet");
        };
        code.push(octet_of(*high, *low).context("no digit")?)?;
    }
    Ok(())
}

// Appends a 64-bit load into a register.
fn push_wide(code: &mut Vec<u8>, register: u8, value: u64) -> Result<()> {
    let v = value.to_le_bytes();
    let slots = [
        LD_IMM64, register, 0, 0, v[0], v[1], v[2], v[3], 0, 0, 0, 0, v[4], v[5], v[6], v[7],
    ];
    code.extend_from_slice(&slots)?;
    Ok(())
}

// How the slots of a row end after loads of `x` into r0 and `y` into r2.
fn ran(alloc: Global, room: &mut Room, slots: &[u8], x: u64, y: u64) -> Result<End> {
    let mut octets = Vec::new(alloc);
    push_wide(&mut octets, 0, x)?;
    push_wide(&mut octets, 2, y)?;
    octets.extend_from_slice(slots)?;
    let code = load(alloc, &octets, &helpers())?;
    let mut memory = Memory::over(room, b"window");
    Ok(run(&code, &mut memory, &mut Sums, 100))
}

// The end that a row says.
fn wanted(text: &str) -> Option<End> {
    if text == "fault" {
        Some(End::Failed(Cause::Memory))
    } else {
        Some(End::Exit(number(text)?))
    }
}

fn row_of(words: &[&str]) -> Option<(u64, u64, End)> {
    match words {
        [x, y, want] => Some((number(x)?, number(y)?, wanted(want)?)),
        _ => None,
    }
}

// Whether a row ends as it says; if not, it is printed.
fn is_right(
    rt: &(impl Print + AllocGlobal),
    room: &mut Room,
    slots: &[u8],
    row: (u64, u64, End),
) -> Result<bool> {
    let (x, y, want) = row;
    let end = ran(rt.alloc(), room, slots, x, y)?;
    if end != want {
        println!(rt; "{slots:?} at {x:x} {y:x}: {end:?}, not {want:?}")?;
    }
    Ok(end == want)
}

// Rows that were tried, those that were wrong, and the slots that the next row is about.
#[derive(Drop)]
struct Tried {
    rows: u32,
    wrong: u32,
    slots: Vec<u8>,
}

fn try_line(
    rt: &(impl Print + AllocGlobal),
    room: &mut Room,
    tried: &mut Tried,
    line: &str,
) -> Result<()> {
    let words: Vec<&str> = line.split(' ').collect(rt.alloc())?;
    if let ["code", octets, _name] = words.as_slice() {
        tried.slots.clear();
        return push_octets(&mut tried.slots, octets);
    }
    let row = row_of(&words).context("no row")?;
    tried.rows = tried.rows.saturating_add(1);
    if !is_right(rt, room, &tried.slots, row)? {
        tried.wrong = tried.wrong.saturating_add(1);
    }
    Ok(())
}

fn try_rows(rt: &(impl Files + Print + AllocGlobal), name: &str) -> Result<()> {
    let text = fs::read_to_string(rt, name)?;
    let mut room = Room::make(rt.alloc())?;
    let slots = Vec::new(rt.alloc());
    let (rows, wrong) = (0, 0);
    let mut tried = Tried { rows, wrong, slots };
    for line in text.lines() {
        try_line(rt, &mut room, &mut tried, line)?;
    }
    println!(rt; "{} rows, {} wrong", tried.rows, tried.wrong)?;
    Ok(())
}

fn main(rt: HostRuntime) -> Result<()> {
    let words: Vec<String> = env::args(&rt)?.skip(1).collect(rt.alloc())?;
    match words.as_slice() {
        [name] => try_rows(&rt, name.as_str()),
        _ => anyhow::bail!("the word is FILE"),
    }
}

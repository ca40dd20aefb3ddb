//! Worked programs, in a world with three helpers.
ghost use Rattle.std.specs.Prelude.{◌≡◌, ℕ, ◌==◌, ◌||◌};
ghost use Rattle.bpf_insn.specs.Helpers.{allows};

use bpf_insn::{HelperSet, load};
use bpf_machine::{Called, Cause, End, Helpers, laws, run};
use bpf_mem::{Memory, Room};
use std::alloc::{AllocError, Global};
use std::test::Fail;

// Helper 1 adds r1 and r2 and is counted, helper 2 passes on to the next program, helper 3 takes no arguments.
#[derive(Drop)]
struct Sums {
    calls: u64,
}

impl Helpers for Sums {
    ghost use Rattle.std.specs.Prelude.{ℕ, ◌+◌, ◌%◌, ◌^◌, ◌==◌, ◌||◌, if◌then◌else◌, slice_index};
    ghost use Rattle.bpf_machine.specs.Running.{CallResult};
    ghost use Rattle.bpf_machine.specs.declared.world.Called.TheVariants.{Value, Next, Misuse};

    ghost State = { ℕ };

    ghost state = { λ s. s.calls };

    ghost Names = { Unit {0} };

    ghost names = { λ _. tt };

    ghost allowed = { λ _ n. n == 1 || (n == 2 || n == 3) };

    ghost helps = { λ n args memory calls.
        if n == 1
        then record {
          called = Value ((slice_index args 0 + slice_index args 1) % 2 ^ 64);
          memory = memory;
          world = (calls + 1) % 2 ^ 64;
        }
        else (let called = if n == 2 then Next else Misuse in
        record { called = called; memory = memory; world = calls }) };

    fn call(&mut self, number: u32, args: [u64; 5], _memory: &mut Memory<'_>) -> Called {
        match number {
            1 => {
                self.calls = self.calls.wrapping_add(1);
                Called::Value(args[0].wrapping_add(args[1]))
            }
            2 => Called::Next,
            _ => Called::Misuse,
        }
    }
}

// The helpers that a world of sums allows.
fn helpers() -> HelperSet
    ensures { (n : ℕ) → allows result n ≡ (n == 1 || (n == 2 || n == 3)) }
{
    HelperSet::none().with(3).with(2).with(1)
}

type Slot = [u8; 8];

const EXIT: Slot = [0x95, 0, 0, 0, 0, 0, 0, 0];

const SEVEN: Slot = [0xb7, 0, 0, 0, 7, 0, 0, 0];

const MINUS_ONE: Slot = [0xb7, 0, 0, 0, 0xff, 0xff, 0xff, 0xff];

const REMAINDER: Slot = [0x94, 0, 0, 0, 0, 0, 0, 0];

const SPIN: Slot = [0x05, 0, 0xff, 0xff, 0, 0, 0, 0];

const LOAD_AT_0: Slot = [0x79, 0, 0, 0, 0, 0, 0, 0];

const WINDOW_LEN: Slot = [0xbf, 0x20, 0, 0, 0, 0, 0, 0];

// Helper 1 of 30 and 4, and then r1 to r5, which are to be 0, added to its result.
const SUM: [Slot; 9] = [
    [0xb7, 1, 0, 0, 30, 0, 0, 0],
    [0xb7, 2, 0, 0, 4, 0, 0, 0],
    [0x85, 0, 0, 0, 1, 0, 0, 0],
    [0x0f, 0x10, 0, 0, 0, 0, 0, 0],
    [0x0f, 0x20, 0, 0, 0, 0, 0, 0],
    [0x0f, 0x30, 0, 0, 0, 0, 0, 0],
    [0x0f, 0x40, 0, 0, 0, 0, 0, 0],
    [0x0f, 0x50, 0, 0, 0, 0, 0, 0],
    EXIT,
];

// The slots of a program, its fuel, how it ends over a window of three octets, and its calls of helper 1.
const RUNS: [(&[Slot], u32, End, u64); 13] = [
    (&[SEVEN, EXIT], 1, End::Failed(Cause::Fuel), 0),
    (&[SEVEN, EXIT], 2, End::Exit(7), 0),
    (&[SEVEN, EXIT], 3, End::Exit(7), 0),
    (&[SEVEN, EXIT], u32::MAX, End::Exit(7), 0),
    (
        &[MINUS_ONE, REMAINDER, EXIT],
        100,
        End::Exit(0xffff_ffff),
        0,
    ),
    (&[SPIN, EXIT], 100, End::Failed(Cause::Fuel), 0),
    (&[LOAD_AT_0, EXIT], 100, End::Failed(Cause::Memory), 0),
    (&[LOAD_AT_0, EXIT], 1, End::Failed(Cause::Memory), 0),
    (&[WINDOW_LEN, EXIT], 100, End::Exit(3), 0),
    (&[EXIT], 0, End::Failed(Cause::Fuel), 0),
    (&SUM, 9, End::Exit(34), 1),
    (&[[0x85, 0, 0, 0, 2, 0, 0, 0], EXIT], 1, End::Next, 0),
    (
        &[[0x85, 0, 0, 0, 3, 0, 0, 0], EXIT],
        1,
        End::Failed(Cause::Misuse),
        0,
    ),
];

fn octets_of(alloc: Global, slots: &[Slot]) -> Result<Vec<u8>, AllocError> {
    let mut octets = Vec::new(alloc);
    for slot in slots {
        octets.extend_from_slice(slot)?;
    }
    Ok(octets)
}

fn ran(alloc: Global, octets: &[u8], fuel: u32) -> Result<(End, u64), Fail> {
    let code = load(alloc, octets, &helpers())?;
    let mut room = Room::make(alloc)?;
    let mut memory = Memory::over(&mut room, b"abc");
    let mut world = Sums { calls: 0 };
    let end = run(&code, &mut memory, &mut world, fuel);
    Ok((end, world.calls))
}

#[test]
fn programs_end_as_worked_out(rt: HostRuntime) -> Result<(), Fail> {
    for (slots, fuel, end, calls) in &RUNS {
        let octets = octets_of(rt.alloc(), slots)?;
        assert_eq!(rt;
            ran(rt.alloc(), &octets, *fuel)?,
            (*end, *calls),
            "at {slots:?}"
        );
    }
    Ok(())
}

#[test]
fn laws_hold_in_a_world() {
    laws::fuel_decides::<Sums>();
    laws::run_keeps::<Sums>();
    laws::run_shows::<Sums, Sums>();
}

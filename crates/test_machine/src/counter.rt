//! A world that borrows what it writes: its caller learns from `run` what a program left there.
ghost use Rattle.std.specs.Prelude.{◌≡◌, ℕ};
ghost use Rattle.bpf_insn.specs.Sound.{CallsOnly};
ghost use Rattle.bpf_machine.specs.Running.{bpf};
ghost use Rattle.test_machine.specs.Counting.{count, counted, is_count};

use bpf_insn::Code;
use bpf_machine::{Called, End, Helpers, run};
use bpf_mem::Memory;

// Helper 1 adds one to the number that is borrowed, and returns it.
#[derive(Drop)]
struct Counter<'a> {
    word: &'a mut u64,
}

impl<'a> Helpers for Counter<'a> {
    ghost use Rattle.std.specs.Prelude.{ℕ};
    ghost use Rattle.test_machine.specs.Counting.{count, is_count};

    ghost State = { ℕ };

    ghost state = { λ c. c.word.now };

    ghost allowed = { λ _ n. is_count n };

    ghost helps = { count };

    ghost Names = { ℕ };

    ghost names = { λ c. c.word.ghost_name };

    fn call(&mut self, _number: u32, _args: [u64; 5], _memory: &mut Memory<'_>) -> Called {
        *self.word = self.word.wrapping_add(1);
        Called::Value(*self.word)
    }
}

/// Runs code over a number that helper 1 counts up.
pub fn run_counted(code: &Code, memory: &mut Memory<'_>, word: &mut u64, fuel: u32) -> End
    requires { CallsOnly is_count code.now }
    ensures end { result ≡ (bpf count code.now memory.old fuel word.old).end }
    ensures memory { memory.new ≡ (bpf count code.now memory.old fuel word.old).memory }
    ensures word { word.new ≡ (bpf count code.now memory.old fuel word.old).world }
{
    let mut world = Counter { word };
    run(code, memory, &mut world, fuel)
}

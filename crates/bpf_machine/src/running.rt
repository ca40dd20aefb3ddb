// A run of a program.
ghost use Rattle.std.specs.Prelude.{◌≡◌, ◌≢◌, ℕ};
ghost use Rattle.bpf_mem.specs.Memory.{Memory};
ghost use Rattle.bpf_insn.specs.Sound.{CallsOnly};
ghost use Rattle.bpf_machine.specs.Steps.{entry, returned};
ghost use Rattle.bpf_machine.specs.Does.{machine};
ghost use Rattle.bpf_machine.specs.Running.{bpf};

use crate::step::{Step, take_step};
use crate::world::{Called, Cause, End, Helpers};
use bpf_insn::Code;
use bpf_mem::Memory;
use bpf_mem::regions::{STACK_END, WINDOW_BASE};

// The registers at entry: r1 is the window's address, r2 its length, r10 the stack's end.
fn registers_at_entry(memory: &Memory<'_>) -> [u64; 11]
    ensures { result ≡ (entry memory.now).regs }
{
    let mut regs = [0; 11];
    regs[1] = WINDOW_BASE;
    regs[2] = memory.window_len();
    regs[10] = STACK_END;
    regs
}

// The registers after a call: r0 is the result, and r1 to r5 are 0.
fn registers_after_call(regs: &[u64; 11], value: u64) -> [u64; 11]
    ensures { (m : Memory) (slot : ℕ) → result ≡ (returned (machine regs.now m slot) m value).regs }
{
    [
        value, 0, 0, 0, 0, 0, regs[6], regs[7], regs[8], regs[9], regs[10],
    ]
}

/// Runs code from its first slot, with at most `fuel` instructions; a 64-bit load is one. The world must allow each
/// helper that the code calls.
///
/// Stack and heap begin as `memory` has them; `Memory::over` makes them zeros. `names` says that the world still holds
/// the references that it held before.
pub fn run<H: Helpers>(code: &Code, memory: &mut Memory<'_>, world: &mut H, fuel: u32) -> End
    requires { CallsOnly (H.allowed (H.state world.old)) code.now }
    ensures end { result ≡ (bpf H.helps code.now memory.old fuel (H.state world.old)).end }
    ensures memory { memory.new ≡ (bpf H.helps code.now memory.old fuel (H.state world.old)).memory }
    ensures state { H.state world.new ≡ (bpf H.helps code.now memory.old fuel (H.state world.old)).world }
    ensures names { H.names world.new ≡ H.names world.old }
    ensures no_bad_return { result ≢ End.Failed Cause.BadReturn }
    ensures no_bad_output { result ≢ End.Failed Cause.BadOutput }
{
    // Called for the clause `accepted` alone.
    let _slots = code.slots();
    let mut regs = registers_at_entry(memory);
    let mut slot = 0;
    let mut left = fuel;
    'instructions: while left > 0 {
        left -= 1;
        match take_step(code, &mut regs, slot, memory) {
            Step::Goes(next) => slot = next,
            Step::Ends(value) => return End::Exit(value),
            Step::Faults => return End::Failed(Cause::Memory),
            Step::Calls(number) => {
                let args = [regs[1], regs[2], regs[3], regs[4], regs[5]];
                match world.call(number, args, memory) {
                    Called::Value(value) => {
                        regs = registers_after_call(&regs, value);
                        slot += 1;
                    }
                    Called::Next => return End::Next,
                    Called::Misuse => return End::Failed(Cause::Misuse),
                }
            }
        }
    }
    End::Failed(Cause::Fuel)
}

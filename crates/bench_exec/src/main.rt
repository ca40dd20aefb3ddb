//! Runs the program of a file TIMES times, with fuel for 1,000,000 instructions and a few more, and prints how the last
//! run ended. The words are TIMES and FILE. bench/exec measures this program. It promises nothing except to be safe.
#![tactic(auto)]

use bpf_insn::{Code, HelperSet, load};
use bpf_machine::{Called, End, Helpers, run};
use bpf_mem::{Memory, Room};
use std::process::ExitCode;
use std::rt::{Env, Files};
use std::{env, fs, io};

// Fuel for each run.
const FUEL: u32 = 1_000_100;

// A world in which every call is a misuse. Code that was loaded without helpers calls none.
#[derive(Drop)]
struct Nothing;

impl Helpers for Nothing {
    ghost use Rattle.std.specs.Prelude.{true};
    ghost use Rattle.bpf_machine.specs.Running.{CallResult};
    ghost use Rattle.bpf_machine.specs.declared.world.Called.TheVariants.{Misuse};

    ghost State = { Unit {0} };

    ghost state = { λ _. tt };

    ghost allowed = { λ _ _. true };

    ghost helps = { λ _ _ memory world. record { called = Misuse; memory = memory; world = world } };

    ghost Names = { Unit {0} };

    ghost names = { λ _. tt };

    fn call(&mut self, _number: u32, _args: [u64; 5], _memory: &mut Memory<'_>) -> Called {
        Called::Misuse
    }
}

fn run_all(code: &Code, room: &mut Room, times: u32) -> End {
    let mut end = End::Next;
    for _ in 0..times {
        let mut memory = Memory::over(room, b"");
        end = run(code, &mut memory, &mut Nothing, FUEL);
    }
    end
}

fn run_file(rt: &(impl Env + Files + Print + AllocGlobal)) -> io::Result<ExitCode> {
    let words: Vec<String> = env::args(rt)?.skip(1).collect(rt.alloc())?;
    let [times, file] = words.as_slice() else {
        return Ok(ExitCode::from(2));
    };
    let Ok(times) = times.as_str().parse::<u32>() else {
        return Ok(ExitCode::from(2));
    };
    let octets = fs::read(rt, file.as_str())?;
    let Ok(code) = load(rt.alloc(), &octets, &HelperSet::none()) else {
        return Ok(ExitCode::from(11));
    };
    let mut room = Room::make(rt.alloc())?;
    match run_all(&code, &mut room, times) {
        End::Exit(value) => {
            println!(rt; "r0 {value}")?;
            Ok(ExitCode::SUCCESS)
        }
        _ => Ok(ExitCode::from(12)),
    }
}

fn main(rt: HostRuntime) -> io::Result<ExitCode> {
    run_file(&rt)
}

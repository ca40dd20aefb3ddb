//! The command `exec`: bytecode that runs alone, without helpers and with an empty window, and how it ends.
ghost use Rattle.std.specs.Prelude.{◌≡◌, ◌++◌, ◌∷◌, [], codes, decimal, false, None, IfOk};
ghost use Rattle.xb_values.specs.Texts.{line as line_of};
ghost use Rattle.bpf_insn.specs.Loading.{load_fault};
ghost use Rattle.spk_model.specs.Reports.{end_line};
ghost use Rattle.xbgp_top.specs.Answers.{alone, end_words, exec_outcome, no_help, no_helper};
ghost use Rattle.xbgp_top.specs.Inputs.{Gives};
ghost use Rattle.xbgp_top.specs.Views.{text_view};

use crate::Status;
use bpf_insn::{Code, HelperSet, load};
use bpf_machine::{Called, End, Helpers, run};
use bpf_mem::{Memory, Room};
use std::alloc::{AllocError, Global};
use table_print::cause_word;
use xb_values::{Buf, append_decimal};

/// How many instructions may run.
pub(crate) const FUEL: u32 = 1_000_000;

// Room for the lines of an end: a word of at most 6 octets or a number of at most 20, and the words around it.
const END_ROOM: usize = 64;

// A world that says whether helpers may be called. Each call is a misuse.
#[derive(Drop)]
struct Alone {
    calls: bool,
}

impl Helpers for Alone {
    ghost use Rattle.std.specs.Prelude.{Bool};

    ghost State = { Bool };

    ghost state = { λ w. w.calls };

    ghost allowed = { λ w n. w };

    ghost helps = { no_help };

    ghost Names = { Unit {0} };

    ghost names = { λ _. tt };

    fn call(&mut self, _number: u32, _args: [u64; 5], _memory: &mut Memory<'_>) -> Called {
        Called::Misuse
    }
}

// Runs code without helpers.
fn run_alone(alloc: Global, code: &Code) -> Result<End, AllocError>
    requires { load_fault no_helper code.now ≡ None }
    ensures { IfOk result (λ end. end ≡ alone code.now) }
{
    let mut room = Room::make(alloc)?;
    let mut memory = Memory::over(&mut room, &[]);
    let mut world = Alone { calls: false };
    Ok(run(code, &mut memory, &mut world, FUEL))
}

// The lines that say how a program ended.
fn end_lines(alloc: Global, end: End) -> Result<Buf, AllocError>
    ensures { IfOk result (λ text. text.octets ≡ line_of (end_words end) ++ end_line) }
{
    let mut text = Buf::make(alloc, END_ROOM)?;
    match end {
        End::Exit(value) => {
            text.append(b"r0 ");
            append_decimal(&mut text, value);
        }
        End::Next => {}
        End::Failed(cause) => {
            text.append(b"fault ");
            text.append(cause_word(cause));
        }
    }
    text.append(b"\nend\n");
    Ok(text)
}

/// Runs bytecode alone, and returns the lines of its end.
pub(crate) fn exec(alloc: Global, octets: &[u8]) -> Result<Buf, Status>
    ensures { Gives (exec_outcome octets.now) (text_view result) }
{
    let code = load(alloc, octets, &HelperSet::none())?;
    let end = run_alone(alloc, &code)?;
    Ok(end_lines(alloc, end)?)
}

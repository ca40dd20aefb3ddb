//! The machine that runs BPF bytecode (RFC 9669).
//!
//! `run` takes code that the loader accepted, a program's memory, a world and fuel. It starts at slot 0 and takes one
//! instruction after another: it borrows the instruction from the code (`Code::get`) and does it on eleven registers
//! and the memory. The run ends when the program exits, when a helper says so, when an access is outside memory, or when
//! the fuel is used up; one instruction costs one unit. Nothing is allocated, and since execution never leaves accepted
//! code, the machine has no checks of its own except those of memory.
//!
//! Which helpers a program may call, and what they do, is up to the caller: a world implements `Helpers`, and `run` is
//! proved for each world that keeps the contract of that trait. A world may borrow what it writes; `names` says that
//! it still holds the same references after a call and after a run.
//!
//! `step` does one instruction: it has an arm for each opcode, in which the opcode is a constant, so that the compiler
//! makes code for that opcode alone. `compute` has arithmetic and comparisons, `words` arithmetic with signs. In
//! specs/, `Words` defines arithmetic, `Steps` one instruction, `Running` a run, `Fuel` and `Worlds` the words of
//! `laws`. This crate uses bpf_insn for the code and bpf_mem for the memory.
#![tactic(auto)]

mod compute;
pub mod laws;
mod running;
mod step;
mod words;
mod world;

pub use running::run;
pub use world::{Called, Cause, End, Helpers};

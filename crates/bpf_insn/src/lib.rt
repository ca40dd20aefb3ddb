//! The loader of BPF bytecode (RFC 9669), and the instructions of code that it accepted.
//!
//! Bytecode is a list of slots of eight octets. `load` checks it once and returns either its first fault, by kind and
//! slot, or `Code`, which keeps the octets as they were loaded. The checks are made in a fixed order: the length, then
//! slot by slot each instruction (its form, its registers, its jump, its helper), then the end. Then each slot is
//! decoded once, and `Code::get` lends an instruction, since a run asks for one at each step.
//!
//! What the loader guarantees is in `specs/Sound`: each jump of accepted code goes to an instruction, r10 is never
//! written, only allowed helpers are called, and after each instruction that may go on there is another one. So a
//! machine that runs accepted code needs no check of its own.
//!
//! `opcodes` names the numbers of instructions, `limits` the sizes, `specs/Forms` says which fields each form may have,
//! `specs/Loading` which fault is the first. This crate uses xb_words alone; running code is bpf_machine's part.
#![tactic(auto)]

mod checks;
mod code;
mod decode;
mod fault;
pub mod forms;
mod helpers;
mod insn;
pub mod limits;
pub mod opcodes;
mod second_slots;
mod slot;

pub use code::{Code, load};
pub use fault::{LoadError, LoadFault, LoadKind};
pub use helpers::HelperSet;
pub use insn::Insn;

//! The memory of a BPF program: a stack, a heap and a window that is only read.
//!
//! A program names octets by 64-bit addresses of its own, which say nothing about where the octets are in this process.
//! There are three regions, each at a fixed address with a fixed size (`regions`): the stack and the heap, which the
//! program reads and writes, and the window, which is what the caller lends for reading, up to `MAX_WINDOW` octets.
//! An access is a range of addresses. It is allowed if all its octets are in one region, and, to be written, if that
//! region isn't the window; any other range is refused, and memory is then unchanged. A range of no octets is allowed
//! at every address. Numbers are little-endian.
//!
//! `Room` is the room for a stack and a heap, allocated once. `Memory::over` clears it and lends it to one run with a
//! window, so that one room serves one run after another. It clears the octets up to the last one that was stored, and
//! all of them after a range was lent for writing. Inside, stack and heap are one vector, the stack first, and
//! `offsets` turns a range of addresses into an offset there.
//!
//! This crate uses xb_words alone. `specs/Memory` defines memory, and what a load and a store are.
#![tactic(auto)]

pub mod laws;
mod memory;
mod numbers;
mod offsets;
pub mod regions;
mod room;

pub use memory::Memory;
pub use room::Room;

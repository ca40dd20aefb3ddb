//! The limits of a manifest that are not those of maps or of code.
use bpf_insn::limits::{MAX_SLOTS, SLOT_SIZE};

/// The one version of a manifest.
pub const VERSION: u32 = 1;

/// The most programs.
pub const MAX_PROGRAMS: u32 = 32;

/// The most instructions of a run of a program.
pub const MAX_FUEL: u32 = 1_000_000;

/// The most characters of a name.
pub const MAX_NAME: usize = 32;

/// The most hexadecimal digits of a program's code: two for each octet of each slot.
pub const MAX_DIGITS: usize = 2 * SLOT_SIZE * MAX_SLOTS;

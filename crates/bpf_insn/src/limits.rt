//! Sizes and limits of bytecode. The most slots and the most helpers are this project's own.

/// Octets of a slot (RFC 9669, section 3.1).
pub const SLOT_SIZE: usize = 8;

/// The most slots of a program.
pub const MAX_SLOTS: usize = 4096;

/// The highest register, r10, which programs only read (RFC 9669, section 3.1).
pub const FRAME_POINTER: u8 = 10;

/// The highest number of a helper; the lowest is 1.
pub const MAX_HELPER: u32 = 31;

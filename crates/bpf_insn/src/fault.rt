// The reasons to refuse bytecode.
ghost use Rattle.std.specs.Prelude.{◌≡◌};

use std::alloc::AllocError;
use thiserror::Error;

/// What is wrong with bytecode. Of one instruction's faults the first in this order is reported.
#[derive(Clone, Copy, Debug, PartialEq, Eq)]
pub enum LoadKind {
    /// There are no octets, or the last slot isn't whole.
    Length,
    /// There are more than `MAX_SLOTS` slots.
    TooLong,
    /// The opcode isn't one of the profile's.
    Opcode,
    /// A register is above r10.
    Register,
    /// A field that the form doesn't use isn't 0, or a field has a value that the form doesn't list.
    Reserved,
    /// A 64-bit load has no second slot, or one with other fields than the immediate.
    WidePair,
    /// No instruction begins at the target of a jump.
    Jump,
    /// The instruction writes r10.
    WriteR10,
    /// The helper of this number is called, and isn't allowed.
    Helper(u32),
    /// The last instruction is neither EXIT nor JA.
    OpenEnd,
}

/// What is wrong with bytecode, and at which slot, from 0. A fault of the length is at slot 0.
#[derive(Clone, Copy, Debug, PartialEq, Eq)]
pub struct LoadFault {
    pub kind: LoadKind,
    pub slot: u32,
}

/// Why bytecode wasn't loaded: a want of memory, or its first fault.
#[derive(Clone, Copy, Debug, PartialEq, Eq, Error)]
pub enum LoadError {
    #[error("out of memory")]
    OutOfMemory,
    #[error("{kind:?} at slot {slot}", kind = .0.kind, slot = .0.slot)]
    Bad(LoadFault),
}

impl From<AllocError> for LoadError {
    ghost use Rattle.bpf_insn.specs.declared.fault.LoadError.TheVariants.{OutOfMemory};

    ghost from_gives = { λ _ e. e ≡ OutOfMemory };

    fn from(_error: AllocError) -> LoadError {
        LoadError::OutOfMemory
    }
}

//! What is wrong with a document, and in which of its entries.
ghost use Rattle.std.specs.Prelude.{◌≡◌};

use std::alloc::{AllocError, AllocFailed};
use thiserror::Error;
use xb_domain::{BadKind, Part};

/// What is wrong with a document. `index` is the position of an entry in its list, from 1, or 0 if the fault is in no
/// list.
#[derive(Clone, Copy, Debug, PartialEq, Eq)]
pub struct FieldFault {
    pub kind: BadKind,
    pub part: Part,
    pub index: u32,
}

/// The part of a document that a field is in, and the position of its entry from 1, or 0.
#[derive(Clone, Copy, Debug, PartialEq, Eq)]
pub struct Location {
    pub part: Part,
    pub index: u32,
}

impl Location {
    ghost use Rattle.xb_fields.specs.Fields.{location, fault_at};

    /// The document as a whole.
    pub const TOP: Location = Location {
        part: Part::Top,
        index: 0,
    };

    /// The entry of a part at a position from 1.
    pub fn new(part: Part, index: u32) -> Location
        ensures { result ≡ location part index }
    {
        Location { part, index }
    }

    /// A fault in this location.
    pub fn fault(self, kind: BadKind) -> FieldFault
        ensures { result ≡ fault_at self kind }
    {
        FieldFault {
            kind,
            part: self.part,
            index: self.index,
        }
    }
}

/// Why a document gives no value: its first fault, or want of memory, which says nothing of the document.
#[derive(Clone, Copy, Debug, PartialEq, Eq, Error)]
pub enum FieldError {
    #[error("out of memory")]
    OutOfMemory,
    #[error("{kind:?} in {part:?} {index}", kind = .0.kind, part = .0.part, index = .0.index)]
    Bad(FieldFault),
}

impl From<AllocError> for FieldError {
    ghost use Rattle.xb_fields.specs.declared.fault.FieldError.TheVariants.{OutOfMemory};

    ghost from_gives = { λ _ e. e ≡ OutOfMemory };

    fn from(_error: AllocError) -> FieldError {
        FieldError::OutOfMemory
    }
}

impl<T: Drop> From<AllocFailed<T>> for FieldError {
    ghost use Rattle.xb_fields.specs.declared.fault.FieldError.TheVariants.{OutOfMemory};

    ghost from_gives = { λ _ e. e ≡ OutOfMemory };

    fn from(_error: AllocFailed<T>) -> FieldError {
        FieldError::OutOfMemory
    }
}

impl From<FieldFault> for FieldError {
    ghost use Rattle.xb_fields.specs.declared.fault.FieldError.TheVariants.{Bad};

    ghost from_gives = { λ fault e. e ≡ Bad fault };

    fn from(fault: FieldFault) -> FieldError {
        FieldError::Bad(fault)
    }
}

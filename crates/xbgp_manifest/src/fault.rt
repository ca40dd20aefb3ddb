//! Why a manifest is refused.
ghost use Rattle.std.specs.Prelude.{◌≡◌};

use std::alloc::{AllocError, AllocFailed};
use thiserror::Error;
use xb_domain::{BadKind, Part};
use xb_fields::{FieldError, FieldFault};

/// What is wrong with a manifest. `index` is the position of an entry in its list, from 1, or 0 if the fault is in no
/// list. `slot` is the slot of a program's code, from 0; it is also 0 if the fault is not in code, as its kind says.
#[derive(Clone, Copy, Debug, PartialEq, Eq)]
pub struct ManifestFault {
    pub kind: BadKind,
    pub part: Part,
    pub index: u32,
    pub slot: u32,
}

/// Why a text gives no manifest: its first fault, or want of memory, which says nothing of the text.
#[derive(Clone, Copy, Debug, PartialEq, Eq, Error)]
pub enum ManifestError {
    #[error("out of memory")]
    OutOfMemory,
    #[error("{kind:?} in {part:?} {index}, slot {slot}", kind = .0.kind, part = .0.part, index = .0.index, slot = .0.slot)]
    Bad(ManifestFault),
}

impl From<AllocError> for ManifestError {
    ghost use Rattle.xbgp_manifest.specs.declared.fault.ManifestError.TheVariants.{OutOfMemory};

    ghost from_gives = { λ _ e. e ≡ OutOfMemory };

    fn from(_error: AllocError) -> ManifestError {
        ManifestError::OutOfMemory
    }
}

impl<T: Drop> From<AllocFailed<T>> for ManifestError {
    ghost use Rattle.xbgp_manifest.specs.declared.fault.ManifestError.TheVariants.{OutOfMemory};

    ghost from_gives = { λ _ e. e ≡ OutOfMemory };

    fn from(_error: AllocFailed<T>) -> ManifestError {
        ManifestError::OutOfMemory
    }
}

impl From<FieldFault> for ManifestError {
    ghost use Rattle.xbgp_manifest.specs.declared.fault.ManifestError.TheVariants.{Bad};
    ghost use Rattle.xbgp_manifest.specs.Manifests.{in_slot};

    ghost from_gives = { λ fault e. e ≡ Bad (in_slot 0 fault) };

    fn from(fault: FieldFault) -> ManifestError {
        ManifestError::Bad(ManifestFault {
            kind: fault.kind,
            part: fault.part,
            index: fault.index,
            slot: 0,
        })
    }
}

impl From<FieldError> for ManifestError {
    ghost use Rattle.xbgp_manifest.specs.Outcomes.{IsInNoSlot};

    ghost from_gives = { IsInNoSlot };

    fn from(error: FieldError) -> ManifestError {
        match error {
            FieldError::OutOfMemory => ManifestError::OutOfMemory,
            FieldError::Bad(fault) => fault.into(),
        }
    }
}

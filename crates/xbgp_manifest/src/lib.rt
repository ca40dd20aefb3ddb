//! The manifest: the maps that programs share, and the programs that run at the points of the speaker.
//!
//! A text of TOML comes in; `read_manifest` gives the manifest that it says, or the first of its faults.
//! `specs/Manifests` is the table of keys, with their ranges, in the order in which faults are looked for: the keys of
//! the whole text and its version, then maps and their room together, then programs. The code of a program is
//! hexadecimal digits; it is loaded with the helpers of the program's point, once its name is known to be new, and a
//! fault of the loader keeps its slot.
//!
//! What every accepted manifest keeps is an invariant of `Manifest`: its maps are within the limits of `xbgp_maps`,
//! names differ, the loader takes each program's code, and the code calls no helper that its point does not have. So a
//! program can be run at its point with nothing checked again. What programs do there is not said here.
#![tactic(auto)]

mod code;
mod entries;
mod fault;
mod limits;
mod manifest;
mod maps;
mod name;
mod point;
mod programs;

pub use code::load_kind;
pub use entries::{MapEntries, MapEntry, ProgramEntries, ProgramEntry};
pub use fault::{ManifestError, ManifestFault};
pub use limits::{MAX_DIGITS, MAX_FUEL, MAX_NAME, MAX_PROGRAMS, VERSION};
pub use manifest::{Manifest, read_manifest};
pub use name::Name;

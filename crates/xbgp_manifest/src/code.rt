//! The code of programs: its digits, and what the loader says of it.
ghost use Rattle.std.specs.Prelude.{◌≡◌, codes};
ghost use Rattle.std.specs.Result.{result_map_both};
ghost use Rattle.toml.specs.View.{table_view};
ghost use Rattle.xb_fields.specs.Fields.{present, required, text};
ghost use Rattle.xb_fields.specs.Outcomes.{Gives};
ghost use Rattle.xb_domain.specs.declared.bad.BadKind.TheVariants.{Range};
ghost use Rattle.xbgp_manifest.specs.Outcomes.{GivesManifest};
ghost use Rattle.xbgp_manifest.specs.Manifests.{load_kind, code_text, loaded_at};

use crate::fault::{ManifestError, ManifestFault};
use crate::limits::MAX_DIGITS;
use crate::point::helpers_at;
use bpf_insn::{Code, LoadError, LoadKind, load};
use hex::FromHexError;
use std::alloc::Global;
use toml::Table;
use xb_domain::{BadKind, Part, Point};
use xb_fields::{FieldError, Location, required_text};

/// The kind of a manifest's fault for a fault of bytecode.
pub fn load_kind(kind: LoadKind) -> BadKind
    ensures { result ≡ load_kind kind }
{
    match kind {
        LoadKind::Length => BadKind::Length,
        LoadKind::TooLong => BadKind::TooLong,
        LoadKind::Opcode => BadKind::Opcode,
        LoadKind::Register => BadKind::Register,
        LoadKind::Reserved => BadKind::Reserved,
        LoadKind::WidePair => BadKind::WidePair,
        LoadKind::Jump => BadKind::Jump,
        LoadKind::WriteR10 => BadKind::WriteR10,
        LoadKind::Helper(_) => BadKind::Helper,
        LoadKind::OpenEnd => BadKind::OpenEnd,
    }
}

// The octets that a text's digits say.
fn read_code(alloc: Global, at: Location, text: &str) -> Result<Vec<u8>, FieldError>
    ensures { Gives (result_map_both (λ v. v.items) (λ e. e) result) (present at Range (code_text text.now)) }
{
    if text.len() > MAX_DIGITS {
        return Err(at.fault(BadKind::Range).into());
    }
    match hex::decode(alloc, text) {
        Ok(octets) => Ok(octets),
        Err(FromHexError::OutOfMemory) => Err(FieldError::OutOfMemory),
        Err(_) => Err(at.fault(BadKind::Range).into()),
    }
}

/// The octets of a program's code. `Range` if the digits are odd in number, too many, or not digits.
pub(crate) fn required_code(
    alloc: Global,
    at: Location,
    table: &Table,
) -> Result<Vec<u8>, FieldError>
    ensures { Gives (result_map_both (λ v. v.items) (λ e. e) result)
        (required at (codes "code") (text at code_text) (table_view table.now)) }
{
    let text = required_text(at, "code", table)?;
    read_code(alloc, at, text)
}

/// Loads the code of the program at a position from 1, with the helpers of its point.
pub(crate) fn load_at(
    alloc: Global,
    index: u32,
    point: Point,
    octets: &[u8],
) -> Result<Code, ManifestError>
    ensures { GivesManifest result (loaded_at index point octets.now) }
{
    match load(alloc, octets, &helpers_at(point)) {
        Ok(code) => Ok(code),
        Err(LoadError::OutOfMemory) => Err(ManifestError::OutOfMemory),
        Err(LoadError::Bad(fault)) => Err(ManifestError::Bad(ManifestFault {
            kind: load_kind(fault.kind),
            part: Part::Program,
            index,
            slot: fault.slot,
        })),
    }
}

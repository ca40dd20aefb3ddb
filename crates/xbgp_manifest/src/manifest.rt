//! The manifest that a text says, from its table: its keys and version, maps with their room, programs.
ghost use Rattle.std.specs.Prelude.{◌≡◌, ◌≤◌, Ok, Err, IfOk, IsErrOf, length, nat_le};
ghost use Rattle.toml.specs.View.{table_view};
ghost use Rattle.xb_domain.specs.declared.bad.BadKind.TheVariants.{Key, Room};
ghost use Rattle.xb_domain.specs.declared.bad.Part.TheVariants.{Top};
ghost use Rattle.xb_fields.specs.Fields.{must, location, keys_listed};
ghost use Rattle.xb_fields.specs.Outcomes.{Gives};
ghost use Rattle.xbgp_manifest.specs.Manifests.{manifest, maps_of, manifest_of, room_of, manifest_keys, IsManifest};
ghost use Rattle.xbgp_manifest.specs.Outcomes.{GivesManifest};

use crate::entries::{MapEntries, ProgramEntries};
use crate::fault::{ManifestError, ManifestFault};
use crate::limits::{MAX_PROGRAMS, VERSION};
use crate::maps::{read_maps, room_of};
use crate::programs::read_programs;
use std::alloc::{AllocError, Global};
use std::marker::Model;
use toml::Table;
use xb_domain::BadKind;
use xb_fields::{
    FieldError, FieldFault, Location, keys_listed, optional_list, read_document, required_number,
};
use xbgp_maps::limits::{MAX_MAPS, MAX_ROOM};

/// An accepted manifest: the maps that programs share, and the programs, in the order of the text.
#[derive(Drop)]
pub struct Manifest {
    pub maps: MapEntries,
    pub programs: ProgramEntries,
}

impl Model for Manifest {
    ghost use Rattle.xbgp_manifest.specs.Manifests.{Manifest, IsManifest};

    ghost Value = { Manifest };

    ghost view = { λ m. record { maps = m.maps; programs = m.programs } };

    ghost invariant = { λ m. IsManifest (record { maps = m.maps; programs = m.programs }) };
}

impl Manifest {
    ghost use Rattle.xbgp_manifest.specs.Manifests.{no_manifest};

    /// The manifest with no map and no program.
    pub fn none(alloc: Global) -> Result<Manifest, AllocError>
        ensures { result ≡ Ok no_manifest }
    {
        Ok(Manifest {
            maps: MapEntries {
                items: Vec::new(alloc),
            },
            programs: ProgramEntries {
                items: Vec::new(alloc),
            },
        })
    }
}

// Each key of the whole text is known.
fn check_keys(table: &Table) -> Result<(), FieldFault>
    ensures { result ≡ must (location Top 0) Key (keys_listed manifest_keys (table_view table.now)) }
{
    if keys_listed(&["version", "map", "program"], table) {
        Ok(())
    } else {
        Err(Location::TOP.fault(BadKind::Key))
    }
}

// All entries of all maps have room.
fn check_room(maps: &MapEntries) -> Result<(), FieldFault>
    requires { length maps.now ≤ MAX_MAPS }
    ensures { result ≡ must (location Top 0) Room (nat_le (room_of maps.now) MAX_ROOM) }
{
    if room_of(&maps.items) <= MAX_ROOM {
        Ok(())
    } else {
        Err(Location::TOP.fault(BadKind::Room))
    }
}

// The maps that a table says, with all that is judged before programs.
fn maps_of(alloc: Global, table: &Table) -> Result<MapEntries, FieldError>
    ensures { Gives result (maps_of (table_view table.now)) }
{
    check_keys(table)?;
    let _ = required_number(Location::TOP, "version", VERSION, VERSION, table)?;
    let maps = read_maps(alloc, optional_list(Location::TOP, "map", MAX_MAPS, table)?)?;
    check_room(&maps)?;
    Ok(maps)
}

// The manifest that a table says.
fn manifest_of(alloc: Global, table: &Table) -> Result<Manifest, ManifestError>
    ensures { GivesManifest result (manifest_of (table_view table.now)) }
{
    let maps = maps_of(alloc, table)?;
    let listed = optional_list(Location::TOP, "program", MAX_PROGRAMS, table)?;
    let programs = read_programs(alloc, listed)?;
    Ok(Manifest { maps, programs })
}

/// Reads a manifest from a text of TOML. `Bad` has the first fault of the text, in the order of `manifest_of`;
/// `OutOfMemory` says nothing of the text.
pub fn read_manifest(alloc: Global, text: &[u8]) -> Result<Manifest, ManifestError>
    ensures good { IfOk result (λ m. manifest text.now ≡ Ok m) }
    ensures kept { IfOk result IsManifest }
    ensures bad { (fault : ManifestFault) → IsErrOf result (ManifestError.Bad fault) → manifest text.now ≡ Err fault }
{
    let table = read_document(alloc, text)?;
    manifest_of(alloc, &table)
}

//! The maps: their names and shapes, and the room of all of them.
ghost use Rattle.std.specs.Prelude.{◌≡◌, ◌<◌, ◌≤◌, ◌-◌, ◌*◌, ◌^◌, length, map};
ghost use Rattle.std.specs.Result.{result_map_both};
ghost use Rattle.toml.specs.View.{view, table_view};
ghost use Rattle.xb_fields.specs.Fields.{judged_entries};
ghost use Rattle.xb_fields.specs.Outcomes.{Gives};
ghost use Rattle.xbgp_maps.specs.Mappings.{entry_size};
ghost use Rattle.xbgp_manifest.specs.Manifests.{map_fields, map_entry, map_shape, room_of};
ghost use Rattle.xbgp_manifest.specs.Views.{map_view};

use crate::entries::{MapEntries, MapEntry};
use crate::name::{Name, required_name};
use indexmap::IndexSet;
use std::alloc::Global;
use toml::{Table, Value};
use xb_domain::{BadKind, Part};
use xb_fields::{FieldError, FieldFault, Location, required_number, table_with};
use xbgp_maps::MapShape;
use xbgp_maps::limits::{MAX_ENTRIES, MAX_KEY, MAX_MAPS, MAX_VALUE};

/// What a map's table says.
#[derive(Clone, Copy)]
pub(crate) struct MapFields<'a> {
    pub name: &'a str,
    pub shape: MapShape,
}

// The widths of a map's keys and values in octets, and its most entries.
#[tactic(auto, unfolding(crate::specs::Manifests::map_shape))]
fn map_shape(at: Location, table: &Table) -> Result<MapShape, FieldFault>
    ensures { result ≡ map_shape at (table_view table.now) }
{
    let key = required_number(at, "key", 1, MAX_KEY, table)?;
    let value = required_number(at, "value", 1, MAX_VALUE, table)?;
    let entries = required_number(at, "entries", 1, MAX_ENTRIES, table)?;
    Ok(MapShape {
        key: key as u16,
        value: value as u16,
        entries,
    })
}

// What a map's table says.
#[tactic(auto, unfolding(crate::specs::Manifests::map_fields))]
fn map_fields(index: u32, value: &Value) -> Result<MapFields<'_>, FieldFault>
    ensures { result_map_both (λ f. map_view f) (λ bad. bad) result ≡ map_fields index (view value.now) }
{
    let at = Location::new(Part::Map, index);
    let table = table_with(at, &["name", "key", "value", "entries"], value)?;
    let name = required_name(at, table)?;
    let shape = map_shape(at, table)?;
    Ok(MapFields { name, shape })
}

/// Reads the maps in order. `Double` for a name that an earlier map has.
pub(crate) fn read_maps(alloc: Global, values: &[Value]) -> Result<MapEntries, FieldError>
    requires { length values.now < 2 ^ 32 - 1 }
    ensures { Gives result (judged_entries map_entry (map view values.now)) }
{
    let mut names = IndexSet::new(alloc);
    let mut items = Vec::new(alloc);
    for (i, value) in values.iter().enumerate() {
        let index = i as u32 + 1;
        let fields = map_fields(index, value)?;
        if !names.insert(fields.name)? {
            let at = Location::new(Part::Map, index);
            return Err(at.fault(BadKind::Double).into());
        }
        items.push(MapEntry {
            name: Name::of(alloc, fields.name)?,
            shape: fields.shape,
        })?;
    }
    Ok(MapEntries { items })
}

// The octets of the keys and values of a map that has all its entries.
fn room_of_map(shape: MapShape) -> u64
    ensures value { result ≡ shape.entries * entry_size shape }
    ensures small { result < 2 ^ 49 }
{
    let entry_size = u64::from(shape.key) + u64::from(shape.value);
    u64::from(shape.entries) * entry_size
}

/// The octets of the keys and values of maps that have all their entries.
pub(crate) fn room_of(maps: &[MapEntry]) -> u64
    requires { length maps.now ≤ MAX_MAPS }
    ensures { result ≡ room_of maps.now }
{
    let mut room = 0;
    for entry in maps {
        room += room_of_map(entry.shape);
    }
    room
}

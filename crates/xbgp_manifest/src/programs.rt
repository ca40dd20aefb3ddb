//! The programs: what their tables say, and their loaded code.
ghost use Rattle.std.specs.Prelude.{◌≡◌, ◌<◌, ◌-◌, ◌^◌, length, map};
ghost use Rattle.std.specs.Result.{result_map_both};
ghost use Rattle.toml.specs.View.{view};
ghost use Rattle.xb_fields.specs.Fields.{judged_entries};
ghost use Rattle.xb_fields.specs.Outcomes.{Gives};
ghost use Rattle.xbgp_manifest.specs.Manifests.{program_fields, program_entry, loaded_program};
ghost use Rattle.xbgp_manifest.specs.Outcomes.{GivesManifest};
ghost use Rattle.xbgp_manifest.specs.Views.{program_view};

use crate::code::{load_at, required_code};
use crate::entries::{ProgramEntries, ProgramEntry};
use crate::fault::ManifestError;
use crate::limits::MAX_FUEL;
use crate::name::{Name, required_name};
use crate::point::required_point;
use indexmap::IndexSet;
use std::alloc::Global;
use toml::Value;
use xb_domain::{BadKind, Part, Point};
use xb_fields::{FieldError, Location, required_number, table_with};

/// What a program's table says.
#[derive(Drop)]
pub(crate) struct ProgramFields<'a> {
    pub name: &'a str,
    pub point: Point,
    pub fuel: u32,
    pub octets: Vec<u8>,
}

// What a program's table says, its code as octets.
fn program_fields(alloc: Global, index: u32, value: &Value) -> Result<ProgramFields<'_>, FieldError>
    ensures { Gives (result_map_both (λ f. program_view f) (λ e. e) result) (program_fields index (view value.now)) }
{
    let at = Location::new(Part::Program, index);
    let table = table_with(at, &["name", "point", "fuel", "code"], value)?;
    let name = required_name(at, table)?;
    let point = required_point(at, table)?;
    let fuel = required_number(at, "fuel", 1, MAX_FUEL, table)?;
    let octets = required_code(alloc, at, table)?;
    Ok(ProgramFields {
        name,
        point,
        fuel,
        octets,
    })
}

// The program with its loaded code. `index` is its position from 1.
fn load_program(
    alloc: Global,
    index: u32,
    fields: &ProgramFields<'_>,
) -> Result<ProgramEntry, ManifestError>
    ensures { GivesManifest result (loaded_program index (program_view fields.now)) }
{
    let code = load_at(alloc, index, fields.point, &fields.octets)?;
    Ok(ProgramEntry {
        name: Name::of(alloc, fields.name)?,
        point: fields.point,
        fuel: fields.fuel,
        code,
    })
}

/// Reads the programs in order. `Double` for a name that an earlier program has, before the code is loaded.
pub(crate) fn read_programs(
    alloc: Global,
    values: &[Value],
) -> Result<ProgramEntries, ManifestError>
    requires { length values.now < 2 ^ 32 - 1 }
    ensures { GivesManifest result (judged_entries program_entry (map view values.now)) }
{
    let mut names = IndexSet::new(alloc);
    let mut items = Vec::new(alloc);
    for (i, value) in values.iter().enumerate() {
        let index = i as u32 + 1;
        let fields = program_fields(alloc, index, value)?;
        if !names.insert(fields.name)? {
            let at = Location::new(Part::Program, index);
            return Err(at.fault(BadKind::Double).into());
        }
        items.push(load_program(alloc, index, &fields)?)?;
    }
    Ok(ProgramEntries { items })
}

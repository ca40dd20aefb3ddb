//! The names that a report prints. They are copied before a host takes the manifest, which it does not give back.
ghost use Rattle.std.specs.Prelude.{◌≡◌, ◌<◌, ◌≤◌, length, map, string_bytes, Some, IfOk};
ghost use Rattle.std.specs.List.{slice_get};
ghost use Rattle.xbgp_maps.specs.declared.limits.TheConstants.{MAX_MAPS};
ghost use Rattle.xbgp_manifest.specs.declared.limits.TheConstants.{MAX_PROGRAMS};
ghost use Rattle.spk_model.specs.Names.{map_names_of, program_names_of, names_of, program_view};

use std::alloc::{AllocError, Global};
use std::marker::Model;
use xb_domain::Point;
use xbgp_manifest::{Manifest, MapEntries, ProgramEntries};

/// The name of a program, and the point at which it runs.
#[derive(Drop)]
pub(crate) struct ProgramName {
    name: String,
    point: Point,
}

/// The names of maps and programs, in the manifest's order.
#[derive(Drop)]
pub(crate) struct Names {
    maps: Vec<String>,
    programs: Vec<ProgramName>,
}

impl Model for Names {
    ghost use Rattle.std.specs.Prelude.{◌≤◌, length, map, string_bytes};
    ghost use Rattle.xbgp_maps.specs.declared.limits.TheConstants.{MAX_MAPS};
    ghost use Rattle.xbgp_manifest.specs.declared.limits.TheConstants.{MAX_PROGRAMS};
    ghost use Rattle.spk_model.specs.Names.{Named, program_view};

    ghost Value = { Named };

    ghost view = { λ n. record {
      maps = map string_bytes n.maps.items;
      programs = map program_view n.programs.items;
    } };

    ghost invariant = { λ n. (length n.maps.items ≤ MAX_MAPS) × (length n.programs.items ≤ MAX_PROGRAMS) };
}

// The names of maps.
fn map_names(alloc: Global, maps: &MapEntries) -> Result<Vec<String>, AllocError>
    ensures { IfOk result (λ names. map string_bytes names.items ≡ map_names_of maps.now) }
{
    let mut names = Vec::new(alloc);
    'maps: for i in 0..maps.len() {
        names.push(String::from_str(alloc, maps.get(i).name.as_str())?)?;
    }
    Ok(names)
}

// The names of programs, each with its point.
fn program_names(alloc: Global, programs: &ProgramEntries) -> Result<Vec<ProgramName>, AllocError>
    ensures { IfOk result (λ names. map program_view names.items ≡ program_names_of programs.now) }
{
    let mut names = Vec::new(alloc);
    'programs: for i in 0..programs.len() {
        let program = programs.get(i);
        names.push(ProgramName {
            name: String::from_str(alloc, program.name.as_str())?,
            point: program.point,
        })?;
    }
    Ok(names)
}

impl Names {
    /// The names of a manifest. The error is want of memory.
    pub(crate) fn of(alloc: Global, manifest: &Manifest) -> Result<Names, AllocError>
        ensures { IfOk result (λ names. names ≡ names_of manifest.now) }
    {
        Ok(Names {
            maps: map_names(alloc, &manifest.maps)?,
            programs: program_names(alloc, &manifest.programs)?,
        })
    }

    /// How many maps there are.
    pub(crate) fn maps(&self) -> usize
        ensures count { result ≡ length self.now.maps }
        ensures few { result ≤ MAX_MAPS }
    {
        self.maps.len()
    }

    /// How many programs there are.
    pub(crate) fn programs(&self) -> usize
        ensures count { result ≡ length self.now.programs }
        ensures few { result ≤ MAX_PROGRAMS }
    {
        self.programs.len()
    }

    /// The name of the map at index `i`.
    pub(crate) fn map(&self, i: usize) -> &str
        requires { i < length self.now.maps }
        ensures { slice_get self.now.maps i ≡ Some result.now }
    {
        self.maps[i].as_str()
    }

    /// The name of the program at index `i`, and its point.
    pub(crate) fn program(&self, i: usize) -> (&str, Point)
        requires { i < length self.now.programs }
        ensures { slice_get self.now.programs i ≡ Some (result.0.now, result.1) }
    {
        let program = &self.programs[i];
        (program.name.as_str(), program.point)
    }
}

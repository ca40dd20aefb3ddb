//! Maps and programs, in the order of the text.
ghost use Rattle.std.specs.Prelude.{◌≡◌, ◌<◌, Some, length, slice_get};

use crate::name::Name;
use bpf_insn::Code;
use std::marker::Model;
use xb_domain::Point;
use xbgp_maps::MapShape;

/// A map that programs share.
#[derive(Drop)]
pub struct MapEntry {
    pub name: Name,
    pub shape: MapShape,
}

/// A program: the point at which it runs, the most instructions of a run, and its code.
#[derive(Drop)]
pub struct ProgramEntry {
    pub name: Name,
    pub point: Point,
    pub fuel: u32,
    pub code: Code,
}

/// The maps. In calls of helpers, the map at `i` has number `i`.
#[derive(Drop)]
pub struct MapEntries {
    pub(crate) items: Vec<MapEntry>,
}

impl Model for MapEntries {
    ghost use Rattle.std.specs.Prelude.{List};
    ghost use Rattle.xbgp_manifest.specs.declared.entries.MapEntry.{MapEntry};

    ghost Value = { List MapEntry };

    ghost view = { λ m. m.items.items };
}

impl MapEntries {
    /// How many there are.
    pub fn len(&self) -> usize
        ensures { result ≡ length self.now }
    {
        self.items.len()
    }

    /// The one at `i`, from 0, in the order of the text.
    pub fn get(&self, i: usize) -> &MapEntry
        requires { i < length self.now }
        ensures { slice_get self.now i ≡ Some result.now }
    {
        &self.items[i]
    }
}

/// The programs. Those of one point run in this order.
#[derive(Drop)]
pub struct ProgramEntries {
    pub(crate) items: Vec<ProgramEntry>,
}

impl Model for ProgramEntries {
    ghost use Rattle.std.specs.Prelude.{List};
    ghost use Rattle.xbgp_manifest.specs.declared.entries.ProgramEntry.{ProgramEntry};

    ghost Value = { List ProgramEntry };

    ghost view = { λ p. p.items.items };
}

impl ProgramEntries {
    /// How many there are.
    pub fn len(&self) -> usize
        ensures { result ≡ length self.now }
    {
        self.items.len()
    }

    /// The one at `i`, from 0, in the order of the text.
    pub fn get(&self, i: usize) -> &ProgramEntry
        requires { i < length self.now }
        ensures { slice_get self.now i ≡ Some result.now }
    {
        &self.items[i]
    }
}

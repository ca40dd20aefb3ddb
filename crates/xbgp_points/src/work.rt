// What chains work with, and what they leave.
ghost use Rattle.std.specs.Prelude.{◌≡◌, [], false, not, nat_lt, ◌&&◌, if◌then◌else◌, IfOk, IsSome};
ghost use Rattle.std.specs.Option.{unwrap_or};
ghost use Rattle.xbgp_maps.specs.Mappings.{closed, empty_maps, AreWithinLimits};
ghost use Rattle.xbgp_manifest.specs.Manifests.{entry_shapes};
ghost use Rattle.xbgp_points.specs.Chains.{is_failed as has_failed};

use crate::fault::FaultSet;
use crate::outcome::Outcome;
use bgp_attr::MAX_CANONICAL;
use bpf_mem::Room;
use std::alloc::{AllocError, Global};
use xb_values::Buf;
use xbgp_manifest::MapEntries;
use xbgp_maps::{MapShape, Maps};
use xbgp_view::Overlay;

/// The maps and the faults, and room for programs and for a section.
#[derive(Drop)]
pub(crate) struct Work {
    pub maps: Maps,
    pub faults: FaultSet,
    pub room: Room,
    pub section: Buf,
    // Whether the last chain wrote to a map and kept it.
    pub wrote: bool,
}

// The shapes of a manifest's maps, in order.
fn shapes(alloc: Global, maps: &MapEntries) -> Result<Vec<MapShape>, AllocError>
    ensures { IfOk result (λ v. v.items ≡ entry_shapes maps.now) }
{
    let mut shapes = Vec::with_capacity(alloc, maps.len())?;
    'maps: for i in 0..maps.len() {
        shapes.push(maps.get(i).shape)?;
    }
    Ok(shapes)
}

impl Work {
    /// Empty maps and no fault. All memory is taken here. Err if there is no memory.
    pub fn make(alloc: Global, maps: &MapEntries) -> Result<Work, AllocError>
        requires limits { AreWithinLimits (entry_shapes maps.now) }
        ensures maps { IfOk result (λ w. w.maps ≡ closed (empty_maps (entry_shapes maps.now))) }
        ensures faults { IfOk result (λ w. w.faults ≡ []) }
        ensures room { IfOk result (λ w. w.section.capacity ≡ MAX_CANONICAL) }
        ensures wrote { IfOk result (λ w. w.wrote ≡ false) }
    {
        let shapes = shapes(alloc, maps)?;
        Ok(Work {
            maps: Maps::make(alloc, &shapes)?,
            faults: FaultSet::make(alloc)?,
            room: Room::make(alloc)?,
            section: Buf::make(alloc, MAX_CANONICAL)?,
            wrote: false,
        })
    }
}

/// Whether a program failed.
pub(crate) fn is_failed(outcome: &Outcome) -> bool
    ensures { result ≡ has_failed outcome.now }
{
    matches!(outcome, Outcome::Failed { .. })
}

/// Closes the run of a chain, of which the writes are kept unless a program failed. Whether there were any is returned.
pub(crate) fn close_run(outcome: &Outcome, maps: &mut Maps) -> bool
    requires { IsSome maps.old.began }
    ensures maps { maps.new
        ≡ closed (if has_failed outcome.now then unwrap_or maps.old.began [] else maps.old.maps) }
    ensures wrote { result ≡ (not (has_failed outcome.now) && nat_lt 0 maps.old.writes) }
{
    if is_failed(outcome) {
        maps.undo();
        return false;
    }
    let wrote = maps.writes() > 0;
    maps.commit();
    wrote
}

/// Makes a route what it was, if a program failed.
pub(crate) fn take_back(outcome: &Outcome, route: &mut Overlay)
    ensures { route.new
        ≡ record route.old { route = if has_failed outcome.now then route.old.kept else route.old.route } }
{
    if is_failed(outcome) {
        route.back();
    }
}

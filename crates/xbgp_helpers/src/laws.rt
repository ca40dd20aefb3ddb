//! Laws of the definitions. Each is the contract of a function that does nothing.
ghost use Rattle.std.specs.Prelude.{◌≡◌, ◌≤◌, ℕ, List, Bool, true, length};
ghost use Rattle.xb_domain.specs.declared.point.Point.{Point};
ghost use Rattle.bgp_attr.specs.Routes.{Route};
ghost use Rattle.bpf_mem.specs.Memory.{Memory};
ghost use Rattle.bpf_machine.specs.Running.{bpf};
ghost use Rattle.xbgp_helpers.specs.Changes.{IsEdited, IsSet, IsUnset, changed_at};
ghost use Rattle.xbgp_helpers.specs.Helping.{help};
ghost use Rattle.xbgp_helpers.specs.Shows.{Shown, help_shown};
ghost use Rattle.xbgp_helpers.specs.Worlds.{World};

use crate::numbers::MAX_BUFFER;

/// A call, and so a run, leaves each part of the world that programs may not change at that point.
pub fn parts_are_kept()
    ensures call { (point : Point) (number : ℕ) (args : List ℕ) (memory : Memory) (w : World)
        → let later = (help point number args memory w).world in later ≡ changed_at point w later }
    ensures run { (point : Point) (code : List ℕ) (memory : Memory) (fuel : ℕ) (w : World)
        → let later = (bpf (help point) code memory fuel w).world in later ≡ changed_at point w later }
{}

/// A call leaves the edited route, or sets an attribute that has no fault if the route is then short enough, or removes
/// one that isn't mandatory.
pub fn routes_are_edited()
    ensures { (point : Point) (number : ℕ) (args : List ℕ) (memory : Memory) (w : World)
        → IsEdited w.route ((help point number args memory w).world).route }
{}

/// What setting and removing keep true of a route, a run keeps true. The lemma `bpf-keeps_route` is for any property.
pub fn edits_keep()
    ensures { (test : Route → Bool)
        → ((old new : Route) → IsSet old new → test old ≡ true → test new ≡ true)
        → ((old new : Route) → IsUnset old new → test old ≡ true → test new ≡ true)
        → (point : Point) (code : List ℕ) (memory : Memory) (fuel : ℕ) (w : World) → test w.route ≡ true
        → test ((bpf (help point) code memory fuel w).world).route ≡ true }
{}

/// A write buffer of at most `MAX_BUFFER` octets has no more after a call, and after a run.
pub fn buffers_stay_short()
    ensures call { (point : Point) (number : ℕ) (args : List ℕ) (memory : Memory) (w : World)
        → length w.buffer ≤ MAX_BUFFER → length ((help point number args memory w).world).buffer ≤ MAX_BUFFER }
    ensures run { (point : Point) (code : List ℕ) (memory : Memory) (fuel : ℕ) (w : World)
        → length w.buffer ≤ MAX_BUFFER → length ((bpf (help point) code memory fuel w).world).buffer ≤ MAX_BUFFER }
{}

/// A run over what a world type shows does to the world what a run over the world alone does, and leaves the rest.
pub fn runs_are_shown()
    ensures { (point : Point) (code : List ℕ) (memory : Memory) (fuel : ℕ) (shown : Shown)
        → let ended = bpf (help point) code memory fuel shown.world in
        bpf (help_shown point) code memory fuel shown
        ≡ record { end = ended.end; memory = ended.memory; world = record shown { world = ended.world } } }
{}

//! Laws of the definitions. Each is the contract of a function that does nothing.
ghost use Rattle.std.specs.Prelude.{◌≡◌, ◌≢◌, ℕ, ◌+◌, List, None, Some};
ghost use Rattle.bpf_mem.specs.Memory.{Memory};
ghost use Rattle.bpf_machine.specs.Steps.{Machine, entry};
ghost use Rattle.bpf_machine.specs.Running.{bpf};
ghost use Rattle.bpf_machine.specs.Fuel.{state_after};
ghost use Rattle.bpf_machine.specs.Worlds.{Keeps, Shows, shown_end};
ghost use Rattle.bpf_machine.specs.declared.world.Cause.TheVariants as causes;
ghost use Rattle.bpf_machine.specs.declared.world.End.TheVariants.{Failed};

use crate::world::Helpers;

/// The end is `Fuel` exactly if `fuel` instructions ran and none of them ended the program; then it leaves the state
/// after them. A program that ended earlier ends in the same way with more fuel.
pub fn fuel_decides<H: Helpers>()
    ensures spent { (code : List ℕ) (memory : Memory) (fuel : ℕ) (w : H.State) (m : Machine) (v : H.State)
        → state_after H.helps code fuel (entry memory) w ≡ Some (m, v)
        → bpf H.helps code memory fuel w ≡ record { end = Failed causes.Fuel; memory = m.memory; world = v } }
    ensures ended { (code : List ℕ) (memory : Memory) (fuel : ℕ) (w : H.State)
        → state_after H.helps code fuel (entry memory) w ≡ None
        → (bpf H.helps code memory fuel w).end ≢ Failed causes.Fuel }
    ensures more { (code : List ℕ) (memory : Memory) (fuel : ℕ) (more : ℕ) (w : H.State)
        → state_after H.helps code fuel (entry memory) w ≡ None
        → bpf H.helps code memory (fuel + more) w ≡ bpf H.helps code memory fuel w }
{}

/// A part of the world that no call changes is the same after a run. The part is again a world: to say that a field
/// stays, take the world that a run began with and set the field in it. The lemma `world-kept` is for any type of part.
pub fn run_keeps<H: Helpers>()
    ensures { (part : H.State → H.State) (code : List ℕ) (memory : Memory) (fuel : ℕ) (w : H.State)
        → Keeps part H.helps → part (bpf H.helps code memory fuel w).world ≡ part w }
{}

/// If each call does to the world that a world shows what the calls of another world do, a run does to it what a run
/// over that other world does. The lemma `bpf-shown` is for any two definitions of helpers.
pub fn run_shows<H: Helpers, O: Helpers>()
    ensures { (show : H.State → O.State) (code : List ℕ) (memory : Memory) (fuel : ℕ) (w : H.State)
        → Shows show H.helps O.helps
        → shown_end show (bpf H.helps code memory fuel w) ≡ bpf O.helps code memory fuel (show w) }
{}

//! Tests of manifests: for each key what is refused, with the fault that `check` prints, the helpers of each point,
//! and which of two faults is reported. Beside these tests there is one caller, which shows that a program of a
//! manifest can be run at its point with nothing checked again.
#![tactic(auto)]

ghost use Rattle.std.specs.Prelude.{◌≡◌, ℕ, ◌<◌, Some, length, slice_get};
ghost use Rattle.xb_domain.specs.Points.{helper_allowed};
ghost use Rattle.xbgp_manifest.specs.declared.entries.ProgramEntry.{ProgramEntry};

use bpf_machine::{End, Helpers, run};
use bpf_mem::Memory;
use xbgp_manifest::Manifest;

/// Runs the program at `i`, from 0, in a world that allows the helpers of the program's point.
pub fn run_at_point<H: Helpers>(
    manifest: &Manifest,
    i: usize,
    memory: &mut Memory<'_>,
    world: &mut H,
) -> End
    requires index { i < length manifest.now.programs }
    requires helpers { (p : ProgramEntry) (n : ℕ) → slice_get manifest.now.programs i ≡ Some p
        → H.allowed (H.state world.old) n ≡ helper_allowed p.point n }
{
    let program = manifest.programs.get(i);
    run(&program.code, memory, world, program.fuel)
}

#[cfg(test)]
mod tests;

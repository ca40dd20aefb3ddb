//! What accepted manifests have, and a program that runs at its point.
use crate::run_at_point;
use bpf_insn::{Code, LoadKind};
use bpf_machine::{Called, End, Helpers};
use bpf_mem::{Memory, Room};
use std::alloc::{AllocError, Global};
use std::test::Fail;
use xb_domain::{BadKind, Point};
use xbgp_manifest::{Manifest, load_kind, read_manifest};

const FULL: &str = "program = [
    {code = 'b7000000070000009500000000000000', fuel = 1000000, point = 'decision', name = 'first'},
    {name = 'second', point = 'receive', fuel = 1, code = '9500000000000000'},
]
version = 1
[[map]]
name = 'seen_by-1'
key = 4
value = 8
entries = 1000
[[map]]
entries = 65536
value = 256
key = 64
name = 'b'
";

const FULL_MAPS: &str = "seen_by-1 MapShape { key: 4, value: 8, entries: 1000 }
b MapShape { key: 64, value: 256, entries: 65536 }
";

const FULL_PROGRAMS: &str = "first Decision 1000000 2 [183, 0, 0, 0, 7, 0, 0, 0]
second Receive 1 1 [149, 0, 0, 0, 0, 0, 0, 0]
";

// The name and the shape of each map.
fn maps_of(alloc: Global, manifest: &Manifest) -> Result<String, AllocError> {
    let mut text = String::new(alloc);
    for i in 0..manifest.maps.len() {
        let map = manifest.maps.get(i);
        write!(text, "{} {:?}\n", map.name.as_str(), map.shape)?;
    }
    Ok(text)
}

fn first_slot(code: &Code) -> [u8; 8] {
    if code.slots() > 0 {
        code.slot(0)
    } else {
        [0; 8]
    }
}

// The name, the point, the fuel, the number of slots and the first slot of each program.
fn programs_of(alloc: Global, manifest: &Manifest) -> Result<String, AllocError> {
    let mut text = String::new(alloc);
    for i in 0..manifest.programs.len() {
        let program = manifest.programs.get(i);
        let (point, fuel, code) = (program.point, program.fuel, &program.code);
        write!(text, "{} {point:?} {fuel} ", program.name.as_str())?;
        write!(text, "{} {:?}\n", code.slots(), first_slot(code))?;
    }
    Ok(text)
}

#[test]
fn maps_and_programs_are_kept_in_order(rt: HostRuntime) -> Result<(), Fail> {
    let manifest = read_manifest(rt.alloc(), FULL.as_bytes())?;
    assert_eq!(rt; maps_of(rt.alloc(), &manifest)?.as_str(), FULL_MAPS);
    assert_eq!(rt; programs_of(rt.alloc(), &manifest)?.as_str(), FULL_PROGRAMS);
    Ok(())
}

#[test]
fn no_manifest_is_empty(rt: HostRuntime) -> Result<(), Fail> {
    let none = Manifest::none(rt.alloc())?;
    assert_eq!(rt; (none.maps.len(), none.programs.len()), (0, 0));
    Ok(())
}

#[test]
fn faults_of_code_have_their_kinds(rt: HostRuntime) {
    let kinds = [
        (LoadKind::Helper(10), BadKind::Helper),
        (LoadKind::TooLong, BadKind::TooLong),
    ];
    for (kind, want) in &kinds {
        assert_eq!(rt; load_kind(*kind), *want);
    }
}

// A world with the helpers of a point. A call returns the helper's number.
#[derive(Drop)]
struct AtPoint {
    point: Point,
}

impl Helpers for AtPoint {
    ghost use Rattle.std.specs.Prelude.{ℕ};
    ghost use Rattle.bpf_machine.specs.Running.{CallResult};
    ghost use Rattle.bpf_machine.specs.declared.world.Called.TheVariants.{Value};
    ghost use Rattle.xb_domain.specs.Points.{helper_allowed};
    ghost use Rattle.xb_domain.specs.declared.point.Point.{Point};

    ghost State = { Point };

    ghost state = { λ w. w.point };

    ghost allowed = { λ point n. helper_allowed point n };

    ghost helps = { λ n args memory point. record { called = Value n; memory = memory; world = point } };

    ghost Names = { Unit {0} };

    ghost names = { λ _. tt };

    fn call(&mut self, number: u32, _args: [u64; 5], _memory: &mut Memory<'_>) -> Called {
        Called::Value(u64::from(number))
    }
}

const CALLS_HELPER_2: &str = "version = 1
[[program]]
name = 'p'
point = 'decision'
fuel = 2
code = '85000000020000009500000000000000'
";

// How the first program of a manifest ends.
fn run_first(alloc: Global, manifest: &Manifest) -> Result<Option<End>, AllocError> {
    if manifest.programs.len() == 0 {
        return Ok(None);
    }
    let point = manifest.programs.get(0).point;
    let mut world = AtPoint { point };
    let mut room = Room::make(alloc)?;
    let mut memory = Memory::over(&mut room, &[]);
    Ok(Some(run_at_point(manifest, 0, &mut memory, &mut world)))
}

#[test]
fn a_program_runs_at_its_point(rt: HostRuntime) -> Result<(), Fail> {
    let manifest = read_manifest(rt.alloc(), CALLS_HELPER_2.as_bytes())?;
    assert_eq!(rt; run_first(rt.alloc(), &manifest)?, Some(End::Exit(2)));
    Ok(())
}

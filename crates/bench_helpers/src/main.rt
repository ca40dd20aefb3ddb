//! Runs the program of a file TIMES times over at the point inbound, and prints how the last run ended. The words are
//! TIMES and FILE. bench/helpers measures this program. It promises nothing except to be safe.
//!
//! A program sees a route of seven attributes and a map of 10,000 entries with keys of 8 octets and values of 16, and
//! its window has the number of the run. The writes of each run are kept.
#![tactic(auto)]

ghost use Rattle.std.specs.Prelude.{◌≡◌, ◌≤◌, ℕ, [], ◌∷◌, length, map, None, IsSome, IfOk};
ghost use Rattle.bpf_insn.specs.Helpers.{allows};
ghost use Rattle.bpf_insn.specs.Sound.{CallsOnly};
ghost use Rattle.xb_domain.specs.Points.{helper_allowed};
ghost use Rattle.xb_domain.specs.declared.point.Point.TheVariants.{Inbound};
ghost use Rattle.xbgp_maps.specs.Mappings.{shapes_of};

use bpf_insn::{Code, HelperSet, LoadError, load};
use bpf_machine::{End, run};
use bpf_mem::regions::MAX_WINDOW;
use bpf_mem::{Memory, Room};
use std::alloc::{AllocError, Global};
use std::process::ExitCode;
use std::rt::{Env, Files};
use std::{env, fs, io};
use xb_domain::{Point, Side, helper_allowed};
use xb_values::Prefix;
use xbgp_helpers::InboundWorld;
use xbgp_helpers::numbers::{NEXT, TIME};
use xbgp_maps::{MapShape, Maps};
use xbgp_view::Overlay;

// Fuel for each run.
const FUEL: u32 = 1_000_000;

const ENTRIES: u32 = 10_000;

const LOCAL: Side = Side {
    number: 0,
    asn: 65000,
    address: 0xc000_02fe,
    id: 0xc000_02fd,
    kind: 0,
};

const PEER: Side = Side {
    number: 1,
    asn: 65001,
    address: 0xc000_0201,
    id: 0xc000_0201,
    kind: 1,
};

// ORIGIN, AS_PATH of three AS numbers, NEXT_HOP, MULTI_EXIT_DISC, LOCAL_PREF 0x01020304, and COMMUNITIES and
// LARGE_COMMUNITIES of one each.
const SECTION: [u8; 64] = [
    0x40, 1, 1, 0, 0x40, 2, 14, 2, 3, 0, 0, 0xfd, 0xe9, 0, 0, 0xfd, 0xea, 0, 0, 0xfd, 0xeb, 0x40,
    3, 4, 192, 0, 2, 1, 0x80, 4, 4, 0, 0, 0, 10, 0x40, 5, 4, 1, 2, 3, 4, 0xc0, 8, 4, 0xfd, 0xe9, 0,
    1, 0xc0, 32, 12, 0, 0, 0xfd, 0xe9, 0, 0, 0, 1, 0, 0, 0, 2,
];

/// What programs are run on.
#[derive(Drop)]
struct Bench {
    room: Room,
    prefix: Prefix,
    route: Overlay,
    maps: Maps,
}

// The key of an entry; bench/helpers/programs.rs has the same.
fn key_of(number: u32) -> [u8; 8] {
    u64::from(number)
        .wrapping_mul(0x9E37_79B9_7F4A_7C15)
        .to_le_bytes()
}

// Writes a number at its key.
fn put_number(maps: &mut Maps, number: u32)
    requires open { IsSome maps.old.began }
    requires keys { map (λ s. s.key) (shapes_of maps.old.maps) ≡ 8 ∷ [] }
    requires values { map (λ s. s.value) (shapes_of maps.old.maps) ≡ 16 ∷ [] }
    ensures began { maps.new.began ≡ maps.old.began }
    ensures shapes { shapes_of maps.new.maps ≡ shapes_of maps.old.maps }
{
    let _ = maps.put(0, &key_of(number), &u128::from(number).to_be_bytes());
}

// A map of `ENTRIES` entries.
fn fill(alloc: Global) -> Result<Maps, AllocError>
    ensures { IfOk result (λ m. m.began ≡ None) }
{
    let shapes = [MapShape {
        key: 8,
        value: 16,
        entries: ENTRIES,
    }];
    let mut maps = Maps::make(alloc, &shapes)?;
    'numbers: for number in 0..ENTRIES {
        maps.begin();
        put_number(&mut maps, number);
        maps.commit();
    }
    Ok(maps)
}

fn make(alloc: Global) -> io::Result<Bench>
    ensures { IfOk result (λ b. b.maps.began ≡ None) }
{
    let mut route = Overlay::make(alloc)?;
    route.read(&SECTION);
    Ok(Bench {
        room: Room::make(alloc)?,
        prefix: Prefix::new(0x0a00_0000, 8).ok_or(AllocError)?,
        route,
        maps: fill(alloc)?,
    })
}

// The helpers of a point, as the loader takes them.
fn helpers_at(point: Point) -> HelperSet
    ensures { (n : ℕ) → allows result n ≡ helper_allowed point n }
{
    let mut helpers = HelperSet::none();
    for number in NEXT..TIME + 1 {
        if helper_allowed(point, number) {
            helpers = helpers.with(number);
        }
    }
    helpers
}

// Code that calls helpers of a point.
fn load_at(alloc: Global, point: Point, octets: &[u8]) -> Result<Code, LoadError>
    ensures { IfOk result (λ code. CallsOnly (helper_allowed point) code) }
{
    load(alloc, octets, &helpers_at(point))
}

// One run, over a window.
#[tactic(auto, using(xbgp_helpers::proofs::ShowsLemmas::shown_run))]
fn run_once(code: &Code, bench: &mut Bench, window: &[u8]) -> End
    requires calls { CallsOnly (helper_allowed Inbound) code.now }
    requires open { IsSome bench.old.maps.began }
    requires window { length window.now ≤ MAX_WINDOW }
    ensures { bench.new.maps.began ≡ bench.old.maps.began }
{
    let Bench {
        room,
        prefix,
        route,
        maps,
    } = bench;
    let mut memory = Memory::over(room, window);
    let mut world = InboundWorld::new(0, &PEER, *prefix, route, &LOCAL, maps);
    run(code, &mut memory, &mut world, FUEL)
}

// The runs, each with its number in its window.
fn run_all(code: &Code, bench: &mut Bench, times: u32) -> End
    requires calls { CallsOnly (helper_allowed Inbound) code.now }
    requires closed { bench.old.maps.began ≡ None }
{
    let mut end = End::Next;
    'runs: for number in 0..times {
        let window = u64::from(number).to_le_bytes();
        bench.maps.begin();
        end = run_once(code, bench, &window);
        bench.maps.commit();
    }
    end
}

fn run_file(rt: &(impl Env + Files + Print + AllocGlobal)) -> io::Result<ExitCode> {
    let words: Vec<String> = env::args(rt)?.skip(1).collect(rt.alloc())?;
    let [times, file] = words.as_slice() else {
        return Ok(ExitCode::from(2));
    };
    let Ok(times) = times.as_str().parse::<u32>() else {
        return Ok(ExitCode::from(2));
    };
    let octets = fs::read(rt, file.as_str())?;
    let Ok(code) = load_at(rt.alloc(), Point::Inbound, &octets) else {
        return Ok(ExitCode::from(11));
    };
    let mut bench = make(rt.alloc())?;
    match run_all(&code, &mut bench, times) {
        End::Exit(value) => {
            println!(rt; "r0 {value}")?;
            Ok(ExitCode::SUCCESS)
        }
        _ => Ok(ExitCode::from(12)),
    }
}

fn main(rt: HostRuntime) -> io::Result<ExitCode> {
    run_file(&rt)
}

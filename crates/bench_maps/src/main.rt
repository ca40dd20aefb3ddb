//! Fills a map and then does one job in it 1,048,576 times over, and prints a number that depends on all results.
//!
//! It is the program that bench/maps measures; the words are JOB (`fill`, `get`, `over`, `new`, `undo` or `walk`) and
//! ENTRIES (1 to 65,536). Nothing is proved of it except that it is safe.
#![tactic(auto)]

ghost use Rattle.std.specs.Prelude.{◌≡◌, ◌≤◌, [], ◌∷◌, map, None, IsSome, IfOk};
ghost use Rattle.xbgp_maps.specs.Mappings.{shapes_of};

use std::alloc::{AllocError, Global};
use std::process::ExitCode;
use std::rt::Env;
use std::{env, io};
use xbgp_maps::limits::{BUDGET, MAX_ENTRIES};
use xbgp_maps::{MapShape, Maps, Put, Remove};

// The runs of a job, each of the most writes that a run may have.
const RUNS: u32 = 16_384;

const WRITES: u32 = BUDGET as u32;

/// A map of keys of 8 octets and values of 16.
#[derive(Drop)]
struct Bench {
    maps: Maps,
    entries: u32,
    ghost keys: { map (λ s. s.key) (shapes_of maps.maps) ≡ 8 ∷ [] },
    ghost values: { map (λ s. s.value) (shapes_of maps.maps) ≡ 16 ∷ [] },
    ghost some: { 1 ≤ entries },
}

#[derive(Clone, Copy)]
enum Job {
    Fill,
    Get,
    Over,
    New,
    Undo,
    Walk,
}

fn job_of(word: &str) -> Option<Job> {
    match word {
        "fill" => Some(Job::Fill),
        "get" => Some(Job::Get),
        "over" => Some(Job::Over),
        "new" => Some(Job::New),
        "undo" => Some(Job::Undo),
        "walk" => Some(Job::Walk),
        _ => None,
    }
}

// Keys that are spread over all octets.
fn key_of(number: u32) -> [u8; 8] {
    u64::from(number)
        .wrapping_mul(0x9E37_79B9_7F4A_7C15)
        .to_be_bytes()
}

fn value_of(number: u32) -> [u8; 16] {
    u128::from(number).to_be_bytes()
}

fn put(bench: &mut Bench, number: u32, value: u32) -> u64
    requires { IsSome bench.old.maps.began }
    ensures { IsSome bench.new.maps.began }
{
    match bench.maps.put(0, &key_of(number), &value_of(value)) {
        Put::Done => 1,
        Put::Full | Put::Budget => 0,
    }
}

fn remove(bench: &mut Bench, number: u32) -> u64
    requires { IsSome bench.old.maps.began }
    ensures { IsSome bench.new.maps.began }
{
    match bench.maps.remove(0, &key_of(number)) {
        Remove::Done => 1,
        Remove::Absent | Remove::Budget => 0,
    }
}

// The last octet of a value, which is summed.
fn sum_of(octets: Option<&[u8]>) -> u64 {
    match octets {
        Some([.., last]) => u64::from(*last),
        _ => 0,
    }
}

fn get(bench: &Bench, number: u32) -> u64 {
    sum_of(bench.maps.get(0, &key_of(number)))
}

// The numbers of the entries, each equally often, in an order that is not that of the keys.
fn number_at(bench: &Bench, run: u32, write: u32) -> u32 {
    run.wrapping_mul(WRITES)
        .wrapping_add(write)
        .wrapping_mul(40_503)
        % bench.entries
}

fn make(alloc: Global, entries: u32) -> Result<Bench, AllocError>
    requires least { 1 ≤ entries }
    requires most { entries ≤ MAX_ENTRIES }
    ensures { IfOk result (λ b. b.maps.began ≡ None) }
{
    let shapes = [MapShape {
        key: 8,
        value: 16,
        entries,
    }];
    let maps = Maps::make(alloc, &shapes)?;
    Ok(Bench { maps, entries })
}

fn fill(bench: &mut Bench) -> u64
    requires { bench.old.maps.began ≡ None }
    ensures { bench.new.maps.began ≡ None }
{
    let mut sum = 0u64;
    'numbers: for number in 0..bench.entries {
        bench.maps.begin();
        sum = sum.wrapping_add(put(bench, number, number));
        bench.maps.commit();
    }
    sum
}

fn get_all(bench: &Bench) -> u64 {
    let mut sum = 0u64;
    for run in 0..RUNS {
        for write in 0..WRITES {
            sum = sum.wrapping_add(get(bench, number_at(bench, run, write)));
        }
    }
    sum
}

fn put_run(bench: &mut Bench, run: u32) -> u64
    requires { IsSome bench.old.maps.began }
    ensures { IsSome bench.new.maps.began }
{
    let mut sum = 0u64;
    'writes: for write in 0..WRITES {
        let number = number_at(bench, run, write);
        sum = sum.wrapping_add(put(bench, number, run));
    }
    sum
}

fn renew_run(bench: &mut Bench, run: u32) -> u64
    requires { IsSome bench.old.maps.began }
    ensures { IsSome bench.new.maps.began }
{
    let mut sum = 0u64;
    'writes: for write in 0..WRITES / 2 {
        let number = number_at(bench, run, write);
        sum = sum.wrapping_add(remove(bench, number));
        sum = sum.wrapping_add(put(bench, number, run));
    }
    sum
}

fn write_all(bench: &mut Bench, job: &Job) -> u64
    requires { bench.old.maps.began ≡ None }
{
    let mut sum = 0u64;
    'runs: for run in 0..RUNS {
        bench.maps.begin();
        match job {
            Job::New => {
                sum = sum.wrapping_add(renew_run(bench, run));
                bench.maps.commit();
            }
            Job::Undo => {
                sum = sum.wrapping_add(put_run(bench, run));
                bench.maps.undo();
            }
            _ => {
                sum = sum.wrapping_add(put_run(bench, run));
                bench.maps.commit();
            }
        }
    }
    sum
}

fn walk(bench: &Bench) -> u64 {
    let mut sum = 0u64;
    let mut at = [0u8; 8];
    for _ in 0..RUNS * WRITES {
        match bench.maps.key_after(0, Some(&at)) {
            Some(key) if key.len() == 8 => {
                at.copy_from_slice(key);
                sum = sum.wrapping_add(u64::from(at[7]));
            }
            _ => at = [0; 8],
        }
    }
    sum
}

fn do_job(bench: &mut Bench, job: &Job) -> u64
    requires { bench.old.maps.began ≡ None }
{
    match job {
        Job::Fill => 0,
        Job::Get => get_all(bench),
        Job::Walk => walk(bench),
        Job::Over | Job::New | Job::Undo => write_all(bench, job),
    }
}

fn run(rt: &(impl Env + Print + AllocGlobal)) -> io::Result<ExitCode> {
    let words: Vec<String> = env::args(rt)?.skip(1).collect(rt.alloc())?;
    let [job, entries] = words.as_slice() else {
        return Ok(ExitCode::from(2));
    };
    let (Some(job), Ok(entries)) = (job_of(job.as_str()), entries.as_str().parse::<u32>()) else {
        return Ok(ExitCode::from(2));
    };
    if entries == 0 || entries > MAX_ENTRIES {
        return Ok(ExitCode::from(2));
    }
    let mut bench = make(rt.alloc(), entries)?;
    let sum = fill(&mut bench).wrapping_add(do_job(&mut bench, &job));
    println!(rt; "{sum}")?;
    Ok(ExitCode::SUCCESS)
}

fn main(rt: HostRuntime) -> io::Result<ExitCode> {
    run(&rt)
}

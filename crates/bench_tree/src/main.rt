//! Fills a prefix tree and then looks 1,048,576 prefixes up in it, and prints a number that depends on all results.
//!
//! It is the program that bench/tree measures; the words are JOB (`fill` or `get`) and PREFIXES (at least 1). Nothing
//! is proved of it except that it is safe.
#![tactic(auto)]

ghost use Rattle.std.specs.Prelude.{◌^◌, ◌≤◌};

use rib_tree::Tree;
use std::alloc::{AllocError, Global};
use std::process::ExitCode;
use std::rt::Env;
use std::{env, io};
use xb_values::{Prefix, Steps};

const LOOK_UPS: u32 = 1_048_576;

// A value as large as a source and the number of a record.
#[derive(Clone, Copy)]
struct Chosen {
    source: u32,
    record: u64,
}

// The prefix of a number, most of length 24, at addresses that are spread over all.
fn prefix_of(number: u32) -> Option<Prefix> {
    let mixed = u64::from(number).wrapping_mul(0x9E37_79B9_7F4A_7C15);
    let len = match mixed % 8 {
        0 => 8 + mixed / 8 % 9,
        1 => 17 + mixed / 8 % 7,
        2 => 25 + mixed / 8 % 8,
        _ => 24,
    };
    Prefix::new((mixed >> 32) as u32, len as u8)
}

fn filled(alloc: Global, prefixes: u32) -> Result<Tree<Chosen>, AllocError> {
    let mut tree = Tree::make(alloc)?;
    for number in 0..prefixes {
        if let Some(prefix) = prefix_of(number) {
            let chosen = Chosen {
                source: number,
                record: u64::from(number),
            };
            let Ok(_) = tree.insert(prefix, chosen) else {
                return Err(AllocError);
            };
        }
    }
    Ok(tree)
}

fn look_up(tree: &Tree<Chosen>, number: u32) -> u64 {
    let Some(prefix) = prefix_of(number) else {
        return 0;
    };
    match tree.get(prefix, &mut Steps::start()) {
        Some(chosen) => chosen.record.wrapping_add(u64::from(chosen.source)),
        None => 0,
    }
}

fn look_up_all(tree: &Tree<Chosen>, prefixes: u32) -> u64
    requires { 1 ≤ prefixes }
{
    let mut sum = 0u64;
    for turn in 0..LOOK_UPS {
        sum = sum.wrapping_add(look_up(tree, turn.wrapping_mul(40_503) % prefixes));
    }
    sum
}

fn run(rt: &(impl Env + Print + AllocGlobal)) -> io::Result<ExitCode> {
    let words: Vec<String> = env::args(rt)?.skip(1).collect(rt.alloc())?;
    let [job, prefixes] = words.as_slice() else {
        return Ok(ExitCode::from(2));
    };
    let Ok(prefixes) = prefixes.as_str().parse::<u32>() else {
        return Ok(ExitCode::from(2));
    };
    if prefixes == 0 {
        return Ok(ExitCode::from(2));
    }
    let tree = filled(rt.alloc(), prefixes)?;
    let sum = match job.as_str() {
        "fill" => look_up(&tree, 0),
        "get" => look_up_all(&tree, prefixes),
        _ => return Ok(ExitCode::from(2)),
    };
    println!(rt; "{sum}")?;
    Ok(ExitCode::SUCCESS)
}

fn main(rt: HostRuntime) -> io::Result<ExitCode> {
    run(&rt)
}

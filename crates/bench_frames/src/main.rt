//! Feeds the octets of a file to `Frames` 64 times over, in pieces of one size, and prints how many messages came.
//! It is the program that bench/frames measures; the words are PIECE (octets) and FILE.
//!
//! It uses `bgp_frame`, and its contracts promise only that there is room for the next octet, so that it ends.
#![tactic(auto)]

ghost use Rattle.std.specs.Prelude.{◌<◌, length};

use bgp_frame::{Frames, MAX_WAITING, Next};
use std::process::ExitCode;
use std::rt::{Env, Files};
use std::{env, fs, io};

// How often the file is fed: 64 MiB if it has one.
const TIMES: u32 = 64;

// Removes all whole messages, and counts them from `so_far` on. None at a fault.
#[tactic(auto, using(crate::proofs::WaitingLemmas::fewer_wait))]
fn take_messages(frames: &mut Frames, so_far: u64) -> Option<u64>
    ensures { length frames.new.waits < MAX_WAITING }
{
    let mut count = so_far;
    'messages: loop {
        match frames.next() {
            Next::Whole { .. } => count = count.saturating_add(1),
            Next::More => return Some(count),
            Next::Fault(_) => {
                frames.clear();
                return None;
            }
        }
    }
}

// Feeds all octets in pieces, and counts the messages from `so_far` on. None at a fault.
fn feed_all(frames: &mut Frames, octets: &[u8], piece: usize, so_far: u64) -> Option<u64>
    requires piece { 0 < piece }
    requires room { length frames.old.waits < MAX_WAITING }
    ensures { length frames.new.waits < MAX_WAITING }
{
    let mut rest = octets;
    let mut count = so_far;
    'pieces: while !rest.is_empty() {
        let len = piece.min(rest.len());
        let taken = frames.feed(&rest[..len]);
        rest = rest.split_at(taken).1;
        count = take_messages(frames, count)?;
    }
    Some(count)
}

// The messages of all rounds.
fn count_messages(frames: &mut Frames, octets: &[u8], piece: usize) -> Option<u64>
    requires piece { 0 < piece }
    requires room { length frames.old.waits < MAX_WAITING }
{
    let mut count = 0;
    'times: for _ in 0..TIMES {
        count = feed_all(frames, octets, piece, count)?;
    }
    Some(count)
}

fn run(rt: &(impl Env + Files + Print + AllocGlobal)) -> io::Result<ExitCode> {
    let words: Vec<String> = env::args(rt)?.skip(1).collect(rt.alloc())?;
    let [piece, file] = words.as_slice() else {
        return Ok(ExitCode::from(2));
    };
    let Ok(piece) = piece.as_str().parse::<usize>() else {
        return Ok(ExitCode::from(2));
    };
    if piece == 0 {
        return Ok(ExitCode::from(2));
    }
    let octets = fs::read(rt, file.as_str())?;
    let mut frames = Frames::make(rt.alloc())?;
    match count_messages(&mut frames, &octets, piece) {
        Some(count) => {
            println!(rt; "{count}")?;
            Ok(ExitCode::SUCCESS)
        }
        None => Ok(ExitCode::from(10)),
    }
}

fn main(rt: HostRuntime) -> io::Result<ExitCode> {
    run(&rt)
}

//! Reads an event log and prints how many events and octets its lines say. It is the program that bench/log measures;
//! the words are `file LOG`, which reads the log once through a shelf, or `memory LOG`, which parses its lines 64
//! times over.
//!
//! It promises nothing beyond being safe.
#![tactic(auto)]

ghost use Rattle.std.specs.Prelude.{◌≡◌, ◌≤◌, length};

use memchr::memchr;
use replay_log::{Got, LINE_LIMIT, Line, LogReader, OCTETS_LIMIT, parse_into};
use std::alloc::{AllocError, Global};
use std::process::ExitCode;
use std::rt::{Env, Files};
use std::{env, fs, io};
use xb_domain::Event;
use xb_io::FileShelf;
use xb_values::Buf;

// How often the lines in memory are parsed: 64 MiB if the log has one.
const TIMES: u32 = 64;

// The most peers that a configuration may have, so that any log is in the grammar.
const PEERS: u32 = 64;

// What the lines so far say.
#[derive(Clone, Copy, Default)]
struct Tally {
    events: u64,
    octets: u64,
    clock: u32,
}

impl Tally {
    fn add(&mut self, event: Event<'_>) {
        self.events = self.events.saturating_add(1);
        match event {
            Event::Octets(_, octets) => {
                self.octets = self.octets.saturating_add(octets.len() as u64);
            }
            Event::Time(time) => self.clock = time,
            _ => {}
        }
    }
}

// Adds what a line says, or returns false if it is outside the grammar.
fn add_line(tally: &mut Tally, octets: &mut Buf, line: &[u8]) -> bool
    requires short { length line.now ≤ LINE_LIMIT }
    requires room { OCTETS_LIMIT ≤ octets.old.capacity }
    ensures { octets.new.capacity ≡ octets.old.capacity }
{
    match parse_into(octets, line, PEERS, tally.clock) {
        None => false,
        Some(Line::Blank) => true,
        Some(Line::Event(event)) => {
            tally.add(event);
            true
        }
    }
}

fn read_log<R: Files + AllocGlobal>(rt: &R, name: &str) -> Result<Option<Tally>, AllocError> {
    let mut shelf = FileShelf::new(rt);
    let mut reader = LogReader::make(rt.alloc())?;
    let mut octets = Buf::make(rt.alloc(), OCTETS_LIMIT)?;
    let mut tally = Tally::default();
    'lines: loop {
        match reader.next_line(&mut shelf, name) {
            Got::Line => {
                if !add_line(&mut tally, &mut octets, reader.line()) {
                    return Ok(None);
                }
            }
            Got::End => return Ok(Some(tally)),
            _ => return Ok(None),
        }
    }
}

fn add_lines(tally: &mut Tally, octets: &mut Buf, text: &[u8]) -> bool
    requires { OCTETS_LIMIT ≤ octets.old.capacity }
    ensures { octets.new.capacity ≡ octets.old.capacity }
{
    let mut rest = text;
    'lines: while let Some(at) = memchr(b'\n', rest) {
        if at > LINE_LIMIT || !add_line(tally, octets, &rest[..at]) {
            return false;
        }
        rest = &rest[at + 1..];
    }
    true
}

fn parse_lines(alloc: Global, text: &[u8]) -> Result<Option<Tally>, AllocError> {
    let mut octets = Buf::make(alloc, OCTETS_LIMIT)?;
    let mut tally = Tally::default();
    'times: for _ in 0..TIMES {
        tally.clock = 0;
        if !add_lines(&mut tally, &mut octets, text) {
            return Ok(None);
        }
    }
    Ok(Some(tally))
}

fn run(rt: &(impl Env + Files + Print + AllocGlobal)) -> io::Result<ExitCode> {
    let words: Vec<String> = env::args(rt)?.skip(1).collect(rt.alloc())?;
    let [way, name] = words.as_slice() else {
        return Ok(ExitCode::from(2));
    };
    let tally = if way.as_str() == "file" {
        read_log(rt, name.as_str())?
    } else {
        parse_lines(rt.alloc(), &fs::read(rt, name.as_str())?)?
    };
    match tally {
        Some(tally) => {
            let (events, octets) = (tally.events, tally.octets);
            println!(rt; "{events} {octets}")?;
            Ok(ExitCode::SUCCESS)
        }
        None => Ok(ExitCode::from(7)),
    }
}

fn main(rt: HostRuntime) -> io::Result<ExitCode> {
    run(&rt)
}

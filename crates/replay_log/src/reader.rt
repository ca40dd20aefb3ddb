//! The lines of a log that a shelf holds, one after another. Octets are read ahead by blocks.
ghost use Rattle.std.specs.Prelude.{◌≡◌, ◌≢◌, ◌⊎◌, ℕ, ◌-◌, ◌<◌, ◌≤◌, List, [], length, take, Some, IfOk, IfSome};
ghost use Rattle.xb_io.specs.Causes.{FaultsRose, IsMissing, told_file};
ghost use Rattle.replay_log.specs.Readings.{next_at, got_view, AreAhead, IsReadAhead};

use crate::ahead::Ahead;
use crate::limits::{LINE_LIMIT, LOG_LIMIT};
use crate::part::{Part, take_part};
use std::alloc::{AllocError, Global};
use std::marker::Model;
use std::mem;
use xb_io::Shelf;
use xb_values::Buf;

/// What a reader found at its offset.
#[derive(Clone, Copy, Debug, PartialEq, Eq)]
pub enum Got {
    /// A line, which `LogReader::line` returns.
    Line,
    /// No octet is left after the last line.
    End,
    /// The line has more than `LINE_LIMIT` octets.
    LineTooLong,
    /// The log has more than `LOG_LIMIT` octets, and the line does not end within them.
    TooLong,
    /// The shelf failed.
    Failed,
}

/// Reads a log line by line, from its first, by blocks of at most 16,384 octets.
#[derive(Drop)]
pub struct LogReader {
    line: Buf,
    // Memory for the next line, whose content means nothing between two calls.
    next: Buf,
    at: u64,
    ahead: Ahead,
}

impl Model for LogReader {
    ghost use Rattle.std.specs.Prelude.{◌≡◌, ◌≤◌, [], length};
    ghost use Rattle.replay_log.specs.declared.limits.TheConstants.{LINE_LIMIT, LOG_LIMIT};
    ghost use Rattle.replay_log.specs.Readings.{Reading};

    ghost Value = { Reading };

    ghost view = { λ r. record { line = (r.line).octets; at = r.at; ahead = r.ahead } };

    ghost invariant = { λ r. (length (r.line).octets ≤ LINE_LIMIT) × ((r.line).capacity ≡ LINE_LIMIT)
        × ((r.next).capacity ≡ LINE_LIMIT) × (r.at ≤ LOG_LIMIT) };
}

// The octets that begin at the offset `at`, up to the limit of a log.
fn within_limit(octets: &[u8], at: u64) -> &[u8]
    requires { at ≤ LOG_LIMIT }
    ensures { result.now ≡ take (LOG_LIMIT - at) octets.now }
{
    let most = LOG_LIMIT - at;
    if octets.len() as u64 <= most {
        octets
    } else {
        &octets[..most as usize]
    }
}

// Reads the line that begins at the offset `start` into the empty `line`, and returns the offset after its end.
fn read_line<S: Shelf>(
    ahead: &mut Ahead,
    shelf: &mut S,
    name: &str,
    start: u64,
    line: &mut Buf,
) -> (Got, u64)
    requires start { start ≤ LOG_LIMIT }
    requires ahead { AreAhead (S.held shelf.old) name.now start ahead.old }
    requires empty { line.old ≡ record { octets = []; capacity = LINE_LIMIT } }
    ensures told { (log : List ℕ) → told_file (S.held shelf.old) name.now ≡ Some log
        → IfSome
        (got_view result.0 (record { line = line.new.octets; at = result.1; ahead = [] }))
        (λ next. next ≡ next_at log start) }
    ensures ahead { result.0 ≡ Got.Line → AreAhead (S.held shelf.new) name.now result.1 ahead.new }
    ensures missing { IsMissing (S.held shelf.old) name.now → result.0 ≡ Got.Failed }
    ensures forward { result.0 ≡ Got.Line → start < result.1 }
    ensures within { result.1 ≤ LOG_LIMIT }
    ensures short { length line.new.octets ≤ LINE_LIMIT }
    ensures room { line.new.capacity ≡ LINE_LIMIT }
    ensures same { S.held shelf.new ≡ S.held shelf.old }
    ensures quiet { result.0 ≢ Got.Failed → S.faults shelf.new ≡ S.faults shelf.old }
    ensures later { S.faults shelf.old ≤ S.faults shelf.new }
    ensures cause { result.0 ≡ Got.Failed
        → FaultsRose (S.faults shelf.old) (S.faults shelf.new) ⊎ IsMissing (S.held shelf.old) name.now }
{
    let mut at = start;
    'parts: loop {
        match ahead.fill(shelf, name, at) {
            Ok(()) => {}
            Err(_) => return (Got::Failed, start),
        }
        if ahead.as_slice().is_empty() {
            if line.len() == 0 {
                return (Got::End, start);
            }
            return (Got::Line, at);
        }
        if at >= LOG_LIMIT {
            return (Got::TooLong, start);
        }
        let octets = within_limit(ahead.as_slice(), at);
        match take_part(octets, line) {
            Part::TooLongPart => return (Got::LineTooLong, start),
            Part::LastPart(count) => {
                ahead.skip(count);
                return (Got::Line, at + count as u64);
            }
            Part::WholePart(count) => {
                ahead.skip(count);
                at += count as u64;
            }
        }
    }
}

impl LogReader {
    /// A reader at the first octet of a log. It takes all the memory that later calls use.
    pub fn make(alloc: Global) -> Result<LogReader, AllocError>
        ensures { IfOk result (λ r. r ≡ record { line = []; at = 0; ahead = [] }) }
    {
        Ok(LogReader {
            line: Buf::make(alloc, LINE_LIMIT)?,
            next: Buf::make(alloc, LINE_LIMIT)?,
            at: 0,
            ahead: Ahead::make(alloc)?,
        })
    }

    /// Reads the next line of the log with that name. If it returns anything except `Line`, the reader is unchanged,
    /// and the call may be made again.
    pub fn next_line<S: Shelf>(&mut self, shelf: &mut S, name: &str) -> Got
        requires { IsReadAhead (S.held shelf.old) name.now self.old }
        ensures told { (log : List ℕ) → told_file (S.held shelf.old) name.now ≡ Some log
            → IfSome (got_view result self.new) (λ next. next ≡ next_at log self.old.at) }
        ensures forward { result ≡ Got.Line → self.old.at < self.new.at }
        ensures within { self.new.at ≤ LOG_LIMIT }
        ensures stays { result ≢ Got.Line → (self.new.line ≡ self.old.line) × (self.new.at ≡ self.old.at) }
        ensures ahead { IsReadAhead (S.held shelf.new) name.now self.new }
        ensures missing { IsMissing (S.held shelf.old) name.now → result ≡ Got.Failed }

        // A failure has its cause; without one the shelf's count stays. What the shelf holds always stays.
        ensures cause { result ≡ Got.Failed
            → FaultsRose (S.faults shelf.old) (S.faults shelf.new) ⊎ IsMissing (S.held shelf.old) name.now }
        ensures quiet { result ≢ Got.Failed → S.faults shelf.new ≡ S.faults shelf.old }
        ensures later { S.faults shelf.old ≤ S.faults shelf.new }
        ensures same { S.held shelf.new ≡ S.held shelf.old }
    {
        self.next.clear();
        let (got, after) = read_line(&mut self.ahead, shelf, name, self.at, &mut self.next);
        if got == Got::Line {
            mem::swap(&mut self.line, &mut self.next);
            self.at = after;
        } else {
            self.ahead.clear();
        }
        got
    }

    /// The last line, without its end; empty before the first.
    pub fn line(&self) -> &[u8]
        ensures value { result.now ≡ self.now.line }
        ensures short { length result.now ≤ LINE_LIMIT }
    {
        self.line.as_slice()
    }
}

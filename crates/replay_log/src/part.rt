// The octets of a line, part by part.
ghost use Rattle.std.specs.Prelude.{◌≡◌, ◌≤◌, length, position, ◌==◌};
ghost use Rattle.replay_log.specs.Readings.{TakesPart};

use crate::limits::LINE_LIMIT;
use memchr::memchr;
use xb_values::Buf;

/// What the octets that were read ahead are to a line.
#[derive(Clone, Copy)]
pub(crate) enum Part {
    /// With them the line has more than `LINE_LIMIT` octets.
    TooLongPart,
    /// The first of them are the last of the line and its end, this many together.
    LastPart(usize),
    /// All of them, this many, are in the line, which goes on.
    WholePart(usize),
}

// The index of the first line end.
fn end_of(octets: &[u8]) -> Option<usize>
    ensures { result ≡ position (λ c. c == 10) octets.now }
{
    memchr(b'\n', octets)
}

/// Appends the octets before the first line end to a line, or all of them.
pub(crate) fn take_part(octets: &[u8], line: &mut Buf) -> Part
    requires short { length line.old.octets ≤ LINE_LIMIT }
    requires room { line.old.capacity ≡ LINE_LIMIT }
    ensures takes { TakesPart octets.now line.old.octets line.new.octets result }
    ensures short { length line.new.octets ≤ LINE_LIMIT }
    ensures room { line.new.capacity ≡ LINE_LIMIT }
{
    match end_of(octets) {
        Some(at) => {
            if line.push(&octets[..at]) {
                Part::LastPart(at + 1)
            } else {
                Part::TooLongPart
            }
        }
        None => {
            if line.push(octets) {
                Part::WholePart(octets.len())
            } else {
                Part::TooLongPart
            }
        }
    }
}

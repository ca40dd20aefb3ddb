//! What one line of a log says.
ghost use Rattle.std.specs.Prelude.{◌≡◌, ℕ, ◌≤◌, ◌∷◌, length, Some, None, false, codes, if◌then◌else◌};
ghost use Rattle.std.specs.Borrow.{sem};
ghost use Rattle.std.specs.Option.{option_map};
ghost use Rattle.std.specs.Str.{bytes_eq};
ghost use Rattle.xb_domain.specs.Views.{event_view};
ghost use Rattle.xb_domain.specs.Events.{octets as octets_in, rescan};
ghost use Rattle.xb_values.specs.Readers.{split_on, number_up_to};
ghost use Rattle.replay_log.specs.Lines.{at_least, peer_event, event_of_words, line_of};
ghost use Rattle.replay_log.specs.Views.{line_view, told_view, KeepsRoom};

use crate::hex::read_hex;
use crate::limits::{LINE_LIMIT, OCTETS_LIMIT};
use xb_domain::Event;
use xb_values::{Buf, read_decimal, split_once};

/// What a line says: nothing, or an event. The octets of an event are in the buffer that the line was parsed into.
#[derive(Clone, Copy, Debug)]
pub enum Line<'a> {
    Blank,
    Event(Event<'a>),
}

// What a line says, except the octets of an event; they are in the buffer.
#[derive(Clone, Copy)]
enum Told {
    Blank,
    Octets(u32),
    Event(Event<'static>),
}

// The number that a text is, if it is from `least` to `most`.
fn number_in(text: &[u8], least: u32, most: u32) -> Option<u32>
    ensures { result ≡ at_least least (number_up_to most text.now) }
{
    let number = read_decimal(text)?;
    if u64::from(least) <= number && number <= u64::from(most) {
        Some(number as u32)
    } else {
        None
    }
}

// The event for a word followed by a peer number and nothing else.
fn peer_event(word: &[u8], peer: u32) -> Option<Event<'static>>
    ensures { option_map event_view result ≡ option_map (λ e. e peer) (peer_event word.now) }
{
    match word {
        b"start" => Some(Event::Start(peer)),
        b"stop" => Some(Event::Stop(peer)),
        b"up" => Some(Event::Up(peer)),
        b"down" => Some(Event::Down(peer)),
        b"drain" => Some(Event::Drain(peer)),
        _ => None,
    }
}

// The event for a word followed by nothing.
fn lone_event(word: &[u8]) -> Option<Event<'static>>
    ensures { option_map event_view result ≡ (if bytes_eq word.now (codes "rescan") then Some rescan else None) }
{
    if word == b"rescan".as_slice() {
        Some(Event::Rescan)
    } else {
        None
    }
}

// The event for a word and its arguments, except for `in`.
fn word_event(word: &[u8], arguments: &[u8], peers: u32, now: u32) -> Option<Event<'static>>
    requires { bytes_eq word.now (codes "in") ≡ false }
    ensures { option_map event_view result ≡ event_of_words peers now (word.now ∷ split_on 32 arguments.now) }
{
    if word == b"room".as_slice() {
        let (peer, count) = split_once(arguments, b' ')?;
        let peer = number_in(peer, 1, peers)?;
        Some(Event::Room(peer, number_in(count, 1, u32::MAX)?))
    } else if word == b"time".as_slice() {
        Some(Event::Time(number_in(arguments, now, u32::MAX)?))
    } else {
        peer_event(word, number_in(arguments, 1, peers)?)
    }
}

// The peer of an `in` line. The octets that came from it replace the content of the buffer.
fn octets_peer(arguments: &[u8], peers: u32, octets: &mut Buf) -> Option<u32>
    requires short { length arguments.now ≤ LINE_LIMIT }
    requires room { OCTETS_LIMIT ≤ octets.old.capacity }
    ensures event { (now : ℕ) → option_map (λ p. octets_in p octets.new.octets) result
        ≡ event_of_words peers now (codes "in" ∷ split_on 32 arguments.now) }
    ensures capacity { octets.new.capacity ≡ octets.old.capacity }
{
    let (peer, digits) = split_once(arguments, b' ')?;
    let peer = number_in(peer, 1, peers)?;
    if !digits.is_empty() && read_hex(digits, octets) {
        Some(peer)
    } else {
        None
    }
}

// What a line says. The octets of an event replace the content of the buffer.
fn read_line(line: &[u8], peers: u32, now: u32, octets: &mut Buf) -> Option<Told>
    requires short { length line.now ≤ LINE_LIMIT }
    requires room { OCTETS_LIMIT ≤ octets.old.capacity }
    ensures line { option_map (told_view octets.new.octets) result ≡ line_of peers now line.now }
    ensures capacity { octets.new.capacity ≡ octets.old.capacity }
{
    if line.is_empty() || line[0] == b'#' {
        return Some(Told::Blank);
    }
    match split_once(line, b' ') {
        None => Some(Told::Event(lone_event(line)?)),
        Some((word, arguments)) if word == b"in".as_slice() => {
            Some(Told::Octets(octets_peer(arguments, peers, octets)?))
        }
        Some((word, arguments)) => Some(Told::Event(word_event(word, arguments, peers, now)?)),
    }
}

fn with_octets<'a>(told: Option<Told>, octets: &'a [u8]) -> Option<Line<'a>>
    ensures { option_map line_view result ≡ option_map (told_view octets.now) told }
{
    match told {
        None => None,
        Some(Told::Blank) => Some(Line::Blank),
        Some(Told::Octets(peer)) => Some(Line::Event(Event::Octets(peer, octets))),
        Some(Told::Event(event)) => Some(Line::Event(event)),
    }
}

/// The same as `parse_line`, with the buffer first. Its contract also says that the buffer has its old capacity once
/// the line is gone, so that it serves for the next one.
pub fn parse_into<'a>(octets: &'a mut Buf, line: &[u8], peers: u32, now: u32) -> Option<Line<'a>>
    requires short { length line.now ≤ LINE_LIMIT }
    requires room { OCTETS_LIMIT ≤ octets.old.capacity }
    ensures* keeps { sem 𝓛 (KeepsRoom octets.entry) }
    ensures line { option_map line_view result ≡ line_of peers now line.now }
{
    let told = read_line(line, peers, now, octets);
    with_octets(told, octets.as_slice())
}

/// Parses a line without its end, for peers numbered 1 to `peers` and a clock of `now` seconds. None if the line is
/// outside the grammar, which also refuses the number of another peer and a time before `now`.
///
/// The content of `octets` is replaced by the octets of an `in` line; after any other line it is unspecified.
pub fn parse_line<'a>(line: &[u8], peers: u32, now: u32, octets: &'a mut Buf) -> Option<Line<'a>>
    requires short { length line.now ≤ LINE_LIMIT }
    requires room { OCTETS_LIMIT ≤ octets.old.capacity }
    ensures { option_map line_view result ≡ line_of peers now line.now }
{
    parse_into(octets, line, peers, now)
}

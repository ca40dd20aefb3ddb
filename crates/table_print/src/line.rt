//! The lines of a replay's report. Each call appends a line, or nothing if it does not fit.
ghost use Rattle.std.specs.Prelude.{◌∷◌, map};
ghost use Rattle.xb_values.specs.Buffers.{Appends};
ghost use Rattle.xb_values.specs.Texts.{line};
ghost use Rattle.xb_domain.specs.Views.{output_view};
ghost use Rattle.table_print.specs.Lines.{adv_line, drained_line, fault_line, map_line, output_line, route_line};
ghost use Rattle.table_print.specs.Pushes.{AppendsFront, word_view};

use crate::word::{cause_word, point_word};
use bpf_machine::Cause;
use xb_domain::{Output, Point};
use xb_values::{Buf, Prefix, push_decimal, push_hex, push_prefix};

/// A word of a line.
#[derive(Drop)]
pub(crate) enum Word<'a> {
    Text(&'a [u8]),
    Number(u32),
    Prefix(Prefix),
    Octets(&'a [u8]),
}

// Appends a word, or nothing if it does not fit.
fn push_word(out: &mut Buf, word: &Word<'_>) -> bool
    ensures { Appends result out.old out.new (word_view word.now) }
{
    match word {
        Word::Text(text) => out.push(text),
        Word::Number(number) => push_decimal(out, u64::from(*number)),
        Word::Prefix(prefix) => push_prefix(out, *prefix),
        Word::Octets(octets) => push_hex(out, octets),
    }
}

// Appends a space and a word. If they do not fit, a front of them may be appended.
#[tactic(auto, using(crate::proofs::LineLemmas::next_word))]
fn push_next(out: &mut Buf, word: &Word<'_>) -> bool
    ensures { AppendsFront result out.old out.new (32 ∷ word_view word.now) }
{
    if !out.push(b" ") {
        return false;
    }
    push_word(out, word)
}

// Appends a line. If it does not fit, a front of it may be appended.
#[tactic(auto, using(crate::proofs::LineLemmas::line_stopped))]
fn push_words(out: &mut Buf, first: &[u8], others: &[Word<'_>]) -> bool
    ensures { AppendsFront result out.old out.new (line (first.now ∷ map word_view others.now)) }
{
    if !out.push(first) {
        return false;
    }
    for word in others {
        if !push_next(out, word) {
            return false;
        }
    }
    out.push(b"\n")
}

// Appends a line, or nothing if it does not fit.
#[tactic(auto, using(crate::proofs::LineLemmas::whole_line))]
fn push_line(out: &mut Buf, first: &[u8], others: &[Word<'_>]) -> bool
    ensures { Appends result out.old out.new (line (first.now ∷ map word_view others.now)) }
{
    let start = out.len();
    if push_words(out, first, others) {
        return true;
    }
    out.truncate(start);
    false
}

/// The line of an output. Whether it fits is returned.
pub fn output_line(out: &mut Buf, item: Output<'_>) -> bool
    ensures { Appends result out.old out.new (output_line (output_view item.entry)) }
{
    match item {
        Output::Up(peer) => push_line(out, b"up", &[Word::Number(peer)]),
        Output::Down(peer) => push_line(out, b"down", &[Word::Number(peer)]),
        Output::Sent(peer, octets) => {
            push_line(out, b"sent", &[Word::Number(peer), Word::Octets(octets)])
        }
    }
}

/// The line of a best route, with its section of path attributes. Whether it fits is returned.
pub fn route_line(out: &mut Buf, prefix: Prefix, source: u32, section: &[u8]) -> bool
    ensures { Appends result out.old out.new (route_line prefix source section.now) }
{
    let words = [
        Word::Prefix(prefix),
        Word::Number(source),
        Word::Octets(section),
    ];
    push_line(out, b"route", &words)
}

/// The line of a prefix that is advertised to a peer, with its section. Whether it fits is returned.
pub fn adv_line(out: &mut Buf, peer: u32, prefix: Prefix, section: &[u8]) -> bool
    ensures { Appends result out.old out.new (adv_line peer prefix section.now) }
{
    let words = [
        Word::Number(peer),
        Word::Prefix(prefix),
        Word::Octets(section),
    ];
    push_line(out, b"adv", &words)
}

/// The line of a peer for which nothing waits. Whether it fits is returned.
pub fn drained_line(out: &mut Buf, peer: u32) -> bool
    ensures { Appends result out.old out.new (drained_line peer) }
{
    push_line(out, b"drained", &[Word::Number(peer)])
}

/// The line of an entry of the map with that name. Whether it fits is returned.
pub fn map_line(out: &mut Buf, name: &str, key: &[u8], value: &[u8]) -> bool
    ensures { Appends result out.old out.new (map_line name.now key.now value.now) }
{
    let words = [
        Word::Text(name.as_bytes()),
        Word::Octets(key),
        Word::Octets(value),
    ];
    push_line(out, b"map", &words)
}

/// The line of a program with that name, which failed at a point. Whether it fits is returned.
pub fn fault_line(out: &mut Buf, name: &str, point: Point, cause: Cause) -> bool
    ensures { Appends result out.old out.new (fault_line name.now point cause) }
{
    let words = [
        Word::Text(name.as_bytes()),
        Word::Text(point_word(point)),
        Word::Text(cause_word(cause)),
    ];
    push_line(out, b"fault", &words)
}

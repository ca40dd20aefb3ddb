// An UPDATE that is packed in the caller's buffer. Its lengths are 0 until it is finished.
ghost use Rattle.std.specs.Prelude.{◌≡◌, ◌+◌, ◌-◌, ◌<◌, ◌≤◌, ◌++◌, ◌↔◌, length, take, true, IsTrue, MatchBool};
ghost use Rattle.xb_values.specs.Prefixes.{prefix_octets};
ghost use Rattle.xb_wire.specs.Messages.{IsMessage};
ghost use Rattle.bgp_write.specs.Written.{Replaces, with_two};
ghost use Rattle.bgp_write.specs.Packings.{packed_message, with_prefix, withdrawing, announcing};
ghost use Rattle.bgp_write.specs.Packings.{header_with, sized, tail_of, sealed, IsPacking};

use xb_values::{Buf, Prefix};
use xb_wire::numbers::{EMPTY_UPDATE, HEADER, MARKER, MAX_MESSAGE, MAX_SECTION};

// The header of an UPDATE, and the length of its withdrawn prefixes; both lengths are still 0.
const OPENING: [u8; 21] = [
    255, 255, 255, 255, 255, 255, 255, 255, 255, 255, 255, 255, 255, 255, 255, 255, 0, 0, 2, 0, 0,
];

// The length of a section without attributes.
static NO_SECTION: [u8; 2] = [0, 0];

// The octets after the prefixes.
fn tail(withdraws: bool) -> &'static [u8]
    ensures { result.now ≡ tail_of withdraws }
{
    if withdraws { &NO_SECTION } else { &[] }
}

fn begin_withdrawals(out: &mut Buf)
    requires { MAX_MESSAGE ≤ out.old.capacity }
    ensures { Replaces out.old out.new (header_with 0 0 0 0 ++ tail_of true) }
{
    out.replace(&OPENING);
    out.append(&NO_SECTION);
}

fn begin_announcement(out: &mut Buf, section: &[u8])
    requires room { MAX_MESSAGE ≤ out.old.capacity }
    requires short { length section.now ≤ MAX_SECTION }
    ensures { Replaces out.old out.new (header_with 0 0 0 0 ++ sized section.now) }
{
    out.replace(&OPENING);
    out.append(&(section.len() as u16).to_be_bytes());
    out.append(section);
}

// How many octets a prefix is written in.
fn size_of_prefix(prefix: Prefix) -> usize
    ensures { result ≡ length (prefix_octets prefix) }
{
    1 + (usize::from(prefix.len()) + 7) / 8
}

// Inserts a prefix before the tail with which the content ends.
fn insert(out: &mut Buf, prefix: Prefix, tail: &[u8])
    requires ends { length tail.now ≤ length out.old.octets }
    requires room { length out.old.octets + length (prefix_octets prefix) ≤ out.old.capacity }
    ensures { let before = take (length out.old.octets - length tail.now) out.old.octets in
        Replaces out.old out.new (before ++ prefix_octets prefix ++ tail.now) }
{
    let end = out.len() - tail.len();
    let [a, b, c, d] = prefix.addr().to_be_bytes();
    let address = [a, b, c, d];
    out.truncate(end);
    out.append(&[prefix.len()]);
    out.append(&address[..size_of_prefix(prefix) - 1]);
    out.append(tail);
}

// Writes a number over the two octets at an offset.
fn set_two(out: &mut Buf, at: usize, value: u16)
    requires inside { at + 1 < length out.old.octets }
    requires small { at < MAX_MESSAGE }
    ensures { Replaces out.old out.new (with_two out.old.octets at value) }
{
    let [high, low] = value.to_be_bytes();
    out.set_at(at, high);
    out.set_at(at + 1, low);
}

// Writes the lengths: that of the message, and that of its withdrawn prefixes.
fn seal(out: &mut Buf, withdraws: bool)
    requires long { EMPTY_UPDATE ≤ length out.old.octets }
    requires short { length out.old.octets ≤ MAX_MESSAGE }
    ensures { Replaces out.old out.new (sealed withdraws out.old.octets) }
{
    let size = out.len() as u16;
    set_two(out, MARKER, size);
    if withdraws {
        set_two(out, HEADER, size - EMPTY_UPDATE as u16);
    }
}

/// An UPDATE that is being packed into a buffer (RFC 4271, section 4.3): withdrawn prefixes alone, or a section of path
/// attributes with announced prefixes. Contracts see what is packed so far.
pub struct Packer<'a> {
    out: &'a mut Buf,
    withdraws: bool,
    // The offset of the first prefix.
    start: usize,
    ghost sound: { IsPacking withdraws start out.now },
}

impl<'a> Packer<'a> {
    ghost use Rattle.bgp_write.specs.Packers.{packed_so_far, buffer_of, reference_of};

    /// Begins an UPDATE of withdrawn prefixes, which replaces the content of `out`.
    pub fn withdrawals(out: &mut Buf) -> Packer<'_>
        requires { MAX_MESSAGE ≤ out.old.capacity }
        ensures same_reference { reference_of result ≡ out.entry.ghost_name }
        ensures capacity { (buffer_of result).capacity ≡ out.old.capacity }
        ensures empty { packed_so_far result ≡ withdrawing }
    {
        begin_withdrawals(out);
        Packer {
            out,
            withdraws: true,
            start: OPENING.len(),
        }
    }

    /// Begins an UPDATE of prefixes that are announced with a section of path attributes, which replaces the content of
    /// `out`. Beside a section of at most [`MAX_SECTION`] octets there is room for any prefix.
    pub fn announce<'b>(out: &'b mut Buf, section: &[u8]) -> Packer<'b>
        requires room { MAX_MESSAGE ≤ out.old.capacity }
        requires section { length section.now ≤ MAX_SECTION }
        ensures same_reference { reference_of result ≡ out.entry.ghost_name }
        ensures capacity { (buffer_of result).capacity ≡ out.old.capacity }
        ensures empty { packed_so_far result ≡ announcing section.now }
    {
        begin_announcement(out, section);
        Packer {
            out,
            withdraws: false,
            start: OPENING.len() + 2 + section.len(),
        }
    }

    /// Appends a prefix to the others. It is false exactly if the message would have more than 4,096 octets, and then
    /// nothing changed.
    #[tactic(auto, using(crate::proofs::PackingLemmas::insert_rules))]
    pub fn push(&mut self, prefix: Prefix) -> bool
        ensures same_reference { reference_of self.new ≡ reference_of self.old }
        ensures capacity { (buffer_of self.new).capacity ≡ (buffer_of self.old).capacity }
        ensures fits { let grown = packed_message (with_prefix (packed_so_far self.old) prefix) in
            IsTrue result ↔ (length grown ≤ MAX_MESSAGE) }
        ensures after { MatchBool result
            (packed_so_far self.new ≡ with_prefix (packed_so_far self.old) prefix)
            (packed_so_far self.new ≡ packed_so_far self.old) }
        ensures unchanged { MatchBool result (Unit {0}) (buffer_of self.new ≡ buffer_of self.old) }
    {
        if self.out.len() + size_of_prefix(prefix) > MAX_MESSAGE {
            return false;
        }
        insert(self.out, prefix, tail(self.withdraws));
        true
    }

    /// Writes the lengths: the content of `out` is the message of what was packed.
    pub fn finish(self)
        ensures written { Replaces (buffer_of self.entry) self.exit.0.now (packed_message (packed_so_far self.entry)) }
        ensures message { IsMessage self.exit.0.now.octets }
    {
        let Packer {
            out,
            withdraws,
            start: _,
        } = self;
        seal(out, withdraws);
    }
}

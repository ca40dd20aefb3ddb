//! Texts that are written: numbers in decimal, addresses, prefixes, and octets as hexadecimal digits.
ghost use Rattle.std.specs.Prelude.{◌≡◌, ◌+◌, ◌*◌, ◌<◌, ◌≤◌, ◌++◌, ◌∷◌, [], length, flat_map, decimal};
ghost use Rattle.xb_values.specs.Buffers.{Appends};
ghost use Rattle.xb_values.specs.Parts.{joined};
ghost use Rattle.xb_values.specs.Texts.{dotted, prefix_text, hex_digit, hex_octet, hex_text};

use crate::{Buf, Prefix};
use itoa::Buffer;

/// The most digits of a number of 64 bits.
pub const MAX_DECIMAL: usize = 20;

/// The most octets of a prefix's text, which is then of the form `255.255.255.255/32`.
pub const MAX_PREFIX_TEXT: usize = 18;

/// Appends a number in decimal, or nothing if it does not fit. Whether it fits is returned.
#[tactic(auto, using(crate::proofs::TextLemmas::decimal_length))]
pub fn push_decimal(out: &mut Buf, value: u64) -> bool
    ensures appends { Appends result out.old out.new (decimal value) }
    ensures short { length (decimal value) ≤ MAX_DECIMAL }
{
    let mut digits = Buffer::new();
    out.push(digits.format(value).as_bytes())
}

/// Appends a number in decimal, for which there is room.
#[tactic(auto, using(crate::proofs::TextLemmas::decimal_length))]
pub fn append_decimal(out: &mut Buf, value: u64)
    requires { length out.old.octets + MAX_DECIMAL ≤ out.old.capacity }
    ensures appended { out.new ≡ record out.old { octets = out.old.octets ++ decimal value } }
    ensures short { length (decimal value) ≤ MAX_DECIMAL }
{
    let _ = push_decimal(out, value);
}

// Appends all the parts in order, or nothing if they do not fit together.
fn push_all(out: &mut Buf, parts: &[&[u8]]) -> bool
    ensures { Appends result out.old out.new (joined parts.now) }
{
    let mut room = out.room();
    for part in parts {
        if part.len() > room {
            return false;
        }
        room -= part.len();
    }
    for piece in parts {
        out.append(piece);
    }
    true
}

/// Appends an address as four numbers joined by dots, that of its high octet first, or nothing if it does not fit.
/// Whether it fits is returned.
pub fn push_dotted(out: &mut Buf, addr: u32) -> bool
    ensures { Appends result out.old out.new (dotted addr) }
{
    let [a, b, c, d] = addr.to_be_bytes();
    let (mut first, mut second) = (Buffer::new(), Buffer::new());
    let (mut third, mut fourth) = (Buffer::new(), Buffer::new());
    let first = first.format(a).as_bytes();
    let second = second.format(b).as_bytes();
    let third = third.format(c).as_bytes();
    let fourth = fourth.format(d).as_bytes();
    push_all(out, &[first, b".", second, b".", third, b".", fourth])
}

/// Appends a prefix as its address, a slash and its length, or nothing if it does not fit. Whether it fits is returned.
#[tactic(auto, using(crate::proofs::TextLemmas::prefix_text_length))]
pub fn push_prefix(out: &mut Buf, prefix: Prefix) -> bool
    ensures appends { Appends result out.old out.new (prefix_text prefix) }
    ensures short { length (prefix_text prefix) ≤ MAX_PREFIX_TEXT }
{
    let start = out.len();
    if !push_dotted(out, prefix.addr()) {
        return false;
    }
    let mut digits = Buffer::new();
    let len = digits.format(prefix.len()).as_bytes();
    let done = push_all(out, &[b"/", len]);
    if !done {
        out.truncate(start);
    }
    done
}

/// Appends a prefix as its address, a slash and its length, for which there is room.
#[tactic(auto, using(crate::proofs::TextLemmas::prefix_text_length))]
pub fn append_prefix(out: &mut Buf, prefix: Prefix)
    requires { length out.old.octets + MAX_PREFIX_TEXT ≤ out.old.capacity }
    ensures appended { out.new ≡ record out.old { octets = out.old.octets ++ prefix_text prefix } }
    ensures short { length (prefix_text prefix) ≤ MAX_PREFIX_TEXT }
{
    let _ = push_prefix(out, prefix);
}

// The digit of a number below 16.
fn hex_digit_of(d: u8) -> u8
    requires { d < 16 }
    ensures { result ≡ hex_digit d }
{
    if d < 10 { b'0' + d } else { b'a' + (d - 10) }
}

// Appends the digits of eight octets at once, for which there is room.
fn push_eight(out: &mut Buf, a: u8, b: u8, c: u8, d: u8, e: u8, f: u8, g: u8, h: u8)
    requires { length out.old.octets + 16 ≤ out.old.capacity }
    ensures { out.new ≡ record out.old
        { octets = out.old.octets ++ flat_map hex_octet (a ∷ b ∷ c ∷ d ∷ e ∷ f ∷ g ∷ h ∷ []) } }
{
    out.append(&[
        hex_digit_of(a / 16),
        hex_digit_of(a % 16),
        hex_digit_of(b / 16),
        hex_digit_of(b % 16),
        hex_digit_of(c / 16),
        hex_digit_of(c % 16),
        hex_digit_of(d / 16),
        hex_digit_of(d % 16),
        hex_digit_of(e / 16),
        hex_digit_of(e % 16),
        hex_digit_of(f / 16),
        hex_digit_of(f % 16),
        hex_digit_of(g / 16),
        hex_digit_of(g % 16),
        hex_digit_of(h / 16),
        hex_digit_of(h % 16),
    ]);
}

// Appends two digits for each octet, for which there is room, one octet at a time.
fn push_few(out: &mut Buf, bytes: &[u8])
    requires { length out.old.octets + 2 * length bytes.now ≤ out.old.capacity }
    ensures { out.new ≡ record out.old { octets = out.old.octets ++ flat_map hex_octet bytes.now } }
{
    for byte in bytes {
        out.append(&[hex_digit_of(*byte / 16), hex_digit_of(*byte % 16)]);
    }
}

// Appends two digits for each octet, for which there is room, eight octets at a time, which is several times as fast.
fn push_digits(out: &mut Buf, bytes: &[u8])
    requires { length out.old.octets + 2 * length bytes.now ≤ out.old.capacity }
    ensures { out.new ≡ record out.old { octets = out.old.octets ++ flat_map hex_octet bytes.now } }
{
    let mut rest = bytes;
    'eights: while let [a, b, c, d, e, f, g, h, others @ ..] = rest {
        push_eight(out, *a, *b, *c, *d, *e, *f, *g, *h);
        rest = others;
    }
    push_few(out, rest);
}

/// Appends two digits for each octet, or a dash if there are no octets, or nothing if that does not fit. Whether it
/// fits is returned.
#[tactic(auto, using(crate::proofs::TextLemmas::hex_text_some, crate::proofs::TextLemmas::hex_text_length))]
pub fn push_hex(out: &mut Buf, bytes: &[u8]) -> bool
    ensures appends { Appends result out.old out.new (hex_text bytes.now) }
    ensures short { length (hex_text bytes.now) ≤ 2 * length bytes.now + 1 }
{
    if bytes.is_empty() {
        return out.push(b"-");
    }
    if bytes.len() > out.room() / 2 {
        return false;
    }
    push_digits(out, bytes);
    true
}

/// Appends two digits for each octet, or a dash if there are no octets, for which there is room.
pub fn append_hex(out: &mut Buf, bytes: &[u8])
    requires { length out.old.octets + (2 * length bytes.now + 1) ≤ out.old.capacity }
    ensures appended { out.new ≡ record out.old { octets = out.old.octets ++ hex_text bytes.now } }
    ensures short { length (hex_text bytes.now) ≤ 2 * length bytes.now + 1 }
{
    let _ = push_hex(out, bytes);
}

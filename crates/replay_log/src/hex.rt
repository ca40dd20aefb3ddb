//! Octets that are written as hexadecimal digits of either case, two digits each.
ghost use Rattle.std.specs.Prelude.{◌≡◌, ◌+◌, ◌*◌, ◌++◌, ◌≤◌, length, Some, None, is_some, nat_lt, if◌then◌else◌};
ghost use Rattle.std.specs.Prelude.{unwrap_or};
ghost use Rattle.std.specs.Bool.{OnTrue};
ghost use Rattle.std.specs.Option.{option_map};
ghost use Rattle.xb_values.specs.Readers.{hex_value, read_hex};
ghost use Rattle.replay_log.specs.Lines.{octet_value};

use xb_values::Buf;

// What is no value of a digit, and no octet.
const NO_DIGIT: u16 = 256;

// The value of each octet as a digit, or NO_DIGIT.
static VALUES: [u16; 256] = [
    256, 256, 256, 256, 256, 256, 256, 256, 256, 256, 256, 256, 256, 256, 256, 256, 256, 256, 256,
    256, 256, 256, 256, 256, 256, 256, 256, 256, 256, 256, 256, 256, 256, 256, 256, 256, 256, 256,
    256, 256, 256, 256, 256, 256, 256, 256, 256, 256, 0, 1, 2, 3, 4, 5, 6, 7, 8, 9, 256, 256, 256,
    256, 256, 256, 256, 10, 11, 12, 13, 14, 15, 256, 256, 256, 256, 256, 256, 256, 256, 256, 256,
    256, 256, 256, 256, 256, 256, 256, 256, 256, 256, 256, 256, 256, 256, 256, 256, 10, 11, 12, 13,
    14, 15, 256, 256, 256, 256, 256, 256, 256, 256, 256, 256, 256, 256, 256, 256, 256, 256, 256,
    256, 256, 256, 256, 256, 256, 256, 256, 256, 256, 256, 256, 256, 256, 256, 256, 256, 256, 256,
    256, 256, 256, 256, 256, 256, 256, 256, 256, 256, 256, 256, 256, 256, 256, 256, 256, 256, 256,
    256, 256, 256, 256, 256, 256, 256, 256, 256, 256, 256, 256, 256, 256, 256, 256, 256, 256, 256,
    256, 256, 256, 256, 256, 256, 256, 256, 256, 256, 256, 256, 256, 256, 256, 256, 256, 256, 256,
    256, 256, 256, 256, 256, 256, 256, 256, 256, 256, 256, 256, 256, 256, 256, 256, 256, 256, 256,
    256, 256, 256, 256, 256, 256, 256, 256, 256, 256, 256, 256, 256, 256, 256, 256, 256, 256, 256,
    256, 256, 256, 256, 256, 256, 256, 256, 256, 256, 256, 256, 256, 256, 256, 256, 256, 256, 256,
    256, 256, 256,
];

#[inline(always)]
fn value_of(c: u8) -> u16
    ensures value { result ≡ unwrap_or (hex_value c) NO_DIGIT }
    ensures small { result ≤ NO_DIGIT }
{
    VALUES[c as usize]
}

// The octet of two digits, or a number that is no octet.
#[inline(always)]
fn octet_of(high: u8, low: u8) -> u16
    ensures { octet_value high low ≡ (if nat_lt result NO_DIGIT then Some result else None) }
{
    16 * value_of(high) + value_of(low)
}

// Appends octets that the digits say, four at a time, which is faster, and returns the digits that are left: fewer than
// eight, or eight that say no four octets.
fn append_fours<'a>(text: &'a [u8], octets: &mut Buf) -> &'a [u8]
    requires { 2 * length octets.old.octets + length text.now ≤ 2 * octets.old.capacity }
    ensures read { option_map (λ later. octets.new.octets ++ later) (read_hex result.now)
        ≡ option_map (λ later. octets.old.octets ++ later) (read_hex text.now) }
    ensures size { 2 * length octets.new.octets + length result.now ≡ 2 * length octets.old.octets + length text.now }
    ensures capacity { octets.new.capacity ≡ octets.old.capacity }
{
    let mut digits = text;
    'fours: while let [a, b, c, d, e, f, g, h, others @ ..] = digits {
        let (first, second) = (octet_of(*a, *b), octet_of(*c, *d));
        let (third, fourth) = (octet_of(*e, *f), octet_of(*g, *h));
        if first >= NO_DIGIT || second >= NO_DIGIT || third >= NO_DIGIT || fourth >= NO_DIGIT {
            return digits;
        }
        octets.append(&[first as u8, second as u8, third as u8, fourth as u8]);
        digits = others;
    }
    digits
}

/// Replaces the content of `octets` by the octets that `text` says. If it returns false, the content is unspecified.
pub(crate) fn read_hex(text: &[u8], octets: &mut Buf) -> bool
    requires { length text.now ≤ 2 * octets.old.capacity }
    ensures read { result ≡ is_some (read_hex text.now) }
    ensures octets { OnTrue result (read_hex text.now ≡ Some octets.new.octets) }
    ensures capacity { octets.new.capacity ≡ octets.old.capacity }
{
    octets.clear();
    let mut digits = append_fours(text, octets);
    'pairs: while let [high, low, others @ ..] = digits {
        let octet = octet_of(*high, *low);
        if octet >= NO_DIGIT {
            return false;
        }
        octets.append(&[octet as u8]);
        digits = others;
    }
    digits.is_empty()
}

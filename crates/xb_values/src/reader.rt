//! Texts that are read: numbers in decimal, addresses and prefixes.
ghost use Rattle.std.specs.Prelude.{◌≡◌, ◌-◌, ◌*◌, ◌+◌, ◌^◌, ◌∷◌, [], Some, None, position, nat_le, ◌==◌, ◌&&◌};
ghost use Rattle.std.specs.Prelude.{if◌then◌else◌, IfNone, IfSome, length};
ghost use Rattle.std.specs.List.{list_all};
ghost use Rattle.xb_values.specs.Readers.{split_on, is_digit, digits_value, number_up_to, read_decimal, read_dotted};
ghost use Rattle.xb_values.specs.Readers.{read_prefix};

use crate::Prefix;

// The index of the first octet that is the separator.
fn index_of(text: &[u8], separator: u8) -> Option<usize>
    ensures { result ≡ position (λ c. c == separator) text.now }
{
    text.iter().position(|c| *c == separator)
}

/// The text before the first separator and the text after it. None if the text has no separator.
pub fn split_once(text: &[u8], separator: u8) -> Option<(&[u8], &[u8])>
    ensures whole { IfNone result (split_on separator text.now ≡ text.now ∷ []) }
    ensures split { IfSome result (λ p. split_on separator text.now ≡ p.0.now ∷ split_on separator p.1.now) }
    ensures size { IfSome result (λ p. length p.0.now + 1 + length p.1.now ≡ length text.now) }
{
    let at = index_of(text, separator)?;
    Some((&text[..at], &text[at + 1..]))
}

// A number with one more digit at its end.
fn with_digit(value: u64, c: u8) -> Option<u64>
    ensures { let more = value * 10 + (c - 48)
        in result ≡ (if is_digit c && nat_le more (2 ^ 64 - 1) then Some more else None) }
{
    match c {
        b'0'..=b'9' => value.checked_mul(10)?.checked_add(u64::from(c - b'0')),
        _ => None,
    }
}

// The number of digits, each of which is one, if it has at most 64 bits.
fn value_of(text: &[u8]) -> Option<u64>
    ensures { let number = digits_value text.now
        in result ≡ (if list_all is_digit text.now && nat_le number (2 ^ 64 - 1) then Some number else None) }
{
    let mut value = 0u64;
    for c in text {
        value = with_digit(value, *c)?;
    }
    Some(value)
}

/// The number of a text: decimal digits without a sign or a leading zero. None if the text is not of this form, or if
/// the number has more than 64 bits.
pub fn read_decimal(text: &[u8]) -> Option<u64>
    ensures { result ≡ read_decimal text.now }
{
    match text {
        [] | [b'0', _, ..] => None,
        digits => value_of(digits),
    }
}

// The number of a text, if it is at most `limit`.
fn read_up_to(limit: u8, text: &[u8]) -> Option<u8>
    ensures { result ≡ number_up_to limit text.now }
{
    let value = read_decimal(text)?;
    if value <= u64::from(limit) {
        Some(value as u8)
    } else {
        None
    }
}

/// The address of a text: four numbers up to 255, joined by dots, of which the first is the high octet of the result.
/// None if the text is not of this form.
pub fn read_dotted(text: &[u8]) -> Option<u32>
    ensures { result ≡ read_dotted text.now }
{
    let (first, others) = split_once(text, b'.')?;
    let (second, others) = split_once(others, b'.')?;
    let (third, fourth) = split_once(others, b'.')?;
    Some(u32::from_be_bytes([
        read_up_to(255, first)?,
        read_up_to(255, second)?,
        read_up_to(255, third)?,
        read_up_to(255, fourth)?,
    ]))
}

/// The prefix of a text: an address, a slash and a length up to 32. Host bits are cleared. None if the text is not of
/// this form.
pub fn read_prefix(text: &[u8]) -> Option<Prefix>
    ensures { result ≡ read_prefix text.now }
{
    let (address, len) = split_once(text, b'/')?;
    Prefix::new(read_dotted(address)?, read_up_to(32, len)?)
}

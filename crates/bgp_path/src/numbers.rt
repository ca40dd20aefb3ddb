// AS numbers of two or of four octets.
ghost use Rattle.std.specs.Prelude.{◌≡◌, ◌≤◌, ◌*◌, ◌==◌, ◌++◌, ◌+◌, true, false, not, length, take, drop, flat_map};
ghost use Rattle.std.specs.List.{list_any};
ghost use Rattle.bgp_attr.specs.Paths.{first_number, number_octets, numbers_of};
ghost use Rattle.bgp_attr.specs.Paths.{width_of};
ghost use Rattle.bgp_path.specs.Units.{other_number as number_in_other, other_octets};

use bgp_attr::segments::AS_TRANS;
use xb_words::{copy_at, u16_at, u32_at};

// The octets of an AS number.
pub(crate) fn width(wide: bool) -> usize
    ensures { result ≡ width_of wide }
{
    if wide { 4 } else { 2 }
}

// The AS number at the front.
pub(crate) fn number_at_front(octets: &[u8], wide: bool) -> u32
    requires { width_of wide ≤ length octets.now }
    ensures { result ≡ first_number (width_of wide) octets.now }
{
    if wide {
        u32_at(octets, 0)
    } else {
        u32::from(u16_at(octets, 0))
    }
}

// Whether `asn` is one of the first `count` numbers.
pub(crate) fn has_number(octets: &[u8], count: u8, wide: bool, asn: u32) -> bool
    requires { length octets.now ≡ width_of wide * count }
    ensures { result ≡ list_any (λ n. n == asn) (numbers_of (width_of wide) count octets.now) }
{
    let mut rest = octets;
    let mut left = count;
    'numbers: while left > 0 {
        if number_at_front(rest, wide) == asn {
            return true;
        }
        rest = rest.split_at(width(wide)).1;
        left -= 1;
    }
    false
}

// Writes an AS number at the offset `at`.
pub(crate) fn write_number(out: &mut [u8], at: usize, asn: u32, wide: bool)
    requires room { at + width_of wide ≤ length out.old }
    requires asn { wide ≡ false → asn ≤ 65535 }
    ensures { out.new ≡ take at out.old ++ number_octets (width_of wide) asn ++ drop (at + width_of wide) out.old }
{
    if wide {
        copy_at(out, at, &asn.to_be_bytes());
    } else {
        copy_at(out, at, &(asn as u16).to_be_bytes());
    }
}

// An AS number of the width `wide` as the other width has it: two octets hold no number greater than 65,535 (RFC 6793,
// section 4.2.2).
fn other_number(asn: u32, wide: bool) -> u32
    ensures number { result ≡ number_in_other wide asn }
    ensures fits { not wide ≡ false → result ≤ 65535 }
{
    if wide && asn > u32::from(u16::MAX) {
        AS_TRANS
    } else {
        asn
    }
}

// Writes AS numbers of the width `wide` in the other width, the first at the offset `at`.
pub(crate) fn write_in_other_width(out: &mut [u8], at: usize, octets: &[u8], count: u8, wide: bool)
    requires octets { length octets.now ≡ width_of wide * count }
    requires room { at + width_of (not wide) * count ≤ length out.old }
    ensures { let text = flat_map (other_octets wide) (numbers_of (width_of wide) count octets.now) in
        out.new ≡ take at out.old ++ text ++ drop (at + length text) out.old }
{
    let mut to = at;
    let mut rest = octets;
    let mut left = count;
    'numbers: while left > 0 {
        let asn = other_number(number_at_front(rest, wide), wide);
        write_number(out, to, asn, !wide);
        to += width(!wide);
        rest = rest.split_at(width(wide)).1;
        left -= 1;
    }
}

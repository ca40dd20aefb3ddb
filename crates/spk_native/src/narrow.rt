// Attributes with AS numbers of four octets in two (RFC 6793, section 4.2.2).
ghost use Rattle.std.specs.Prelude.{◌≡◌, ◌+◌, ◌*◌, ◌≤◌, ◌++◌, length, true, not, Some, if◌then◌else◌, IfSome};
ghost use Rattle.std.specs.List.{list_any};
ghost use Rattle.bgp_attr.specs.Paths.{path_ok as is_path, numbers_of};
ghost use Rattle.bgp_attr.specs.Routes.{Attribute};
ghost use Rattle.bgp_path.specs.Widths.{is_narrow as fits_two, narrow_number as number_in_two, narrow_path};
ghost use Rattle.spk_native.specs.Receipt.{is_wide_path as has_wide, is_wide_aggregator as has_wide_as};
ghost use Rattle.spk_native.specs.Receipt.{narrow_aggregator as in_two};
ghost use Rattle.spk_native.specs.Rebuilds.{beside, four_size, or_other, size_if, valued, narrow_four as four_in_two};

use crate::four::{Four, joined};
use bgp_attr::MAX_CANONICAL;
use bgp_attr::flags::OPTIONAL_TRANSITIVE;
use bgp_attr::segments::AS_TRANS;
use bgp_path::{Segments, narrow_into};
use xb_words::u32_at;
use xbgp_view::Held;

/// The octets of an AGGREGATOR in two octets an AS number: the number and an address.
pub(crate) const NARROW_AGGREGATOR: usize = 6;

// Whether two octets can hold an AS number.
fn is_narrow(asn: u32) -> bool
    ensures { result ≡ fits_two asn }
{
    asn <= u32::from(u16::MAX)
}

// The number that two octets have for an AS number.
fn narrow_number(asn: u32) -> u16
    ensures { result ≡ number_in_two asn }
{
    if is_narrow(asn) {
        asn as u16
    } else {
        AS_TRANS as u16
    }
}

// Whether two octets cannot hold some AS number of a segment.
fn has_wide_number(octets: &[u8], count: u8) -> bool
    requires { length octets.now ≡ 4 * count }
    ensures { result ≡ list_any (λ n. not (fits_two n)) (numbers_of 4 count octets.now) }
{
    let mut rest = octets;
    let mut left = count;
    'numbers: while left > 0 {
        if !is_narrow(u32_at(rest, 0)) {
            return true;
        }
        rest = rest.split_at(4).1;
        left -= 1;
    }
    false
}

/// Whether two octets cannot hold some AS number of a path.
pub(crate) fn is_wide_path(value: &[u8]) -> bool
    requires path { is_path 4 value.now ≡ true }
    requires short { length value.now ≤ MAX_CANONICAL }
    ensures { result ≡ has_wide value.now }
{
    let Some(mut walk) = Segments::wide(value) else {
        return false;
    };
    'segments: while let Some(segment) = walk.next() {
        if has_wide_number(segment.octets, segment.count) {
            return true;
        }
    }
    false
}

// Whether two octets cannot hold the AS number of an AGGREGATOR.
fn is_wide_aggregator(value: &[u8]) -> bool
    requires { 4 ≤ length value.now }
    ensures { result ≡ has_wide_as value.now }
{
    !is_narrow(u32_at(value, 0))
}

/// An AS_PATH in two octets a number.
pub(crate) fn narrow_path_of<'a>(path: &Held<'_>, room: &'a mut [u8]) -> Held<'a>
    requires path { is_path 4 path.now.value ≡ true }
    requires room { length path.now.value ≤ length room.old }
    ensures { result ≡ record { flags = path.now.flags; value = narrow_path path.now.value } }
{
    let len = narrow_into(path.value(), room).unwrap_or(0);
    Held::new(path.flags(), &room[..len])
}

// An AGGREGATOR with an AS number of two octets.
fn narrow_aggregator_of<'a>(aggregator: &Held<'_>, room: &'a mut [u8]) -> Held<'a>
    requires aggregator { length aggregator.now.value ≡ 8 }
    requires room { length room.old ≡ NARROW_AGGREGATOR }
    ensures { result ≡ record { flags = aggregator.now.flags; value = in_two aggregator.now.value } }
{
    let value = aggregator.value();
    let asn = narrow_number(u32_at(value, 0)).to_be_bytes();
    joined(aggregator.flags(), &asn, value.split_at(4).1, room)
}

// A copy of an attribute, if there is one.
fn copy_if<'a>(had: &Option<Held<'_>>, room: &'a mut [u8]) -> Option<Held<'a>>
    requires { size_if had.now ≤ length room.old }
    ensures { result ≡ had.now }
{
    match had {
        None => None,
        Some(held) => Some(joined(held.flags(), held.value(), &[], room)),
    }
}

// What a route has for a code of four octets: the value of a code that two octets cannot hold, or what it had.
fn or_wide<'a>(
    wide: bool,
    from: &Held<'_>,
    had: &Option<Held<'_>>,
    room: &'a mut [u8],
) -> Option<Held<'a>>
    requires from { length from.now.value ≤ length room.old }
    requires had { size_if had.now ≤ length room.old }
    ensures { result ≡ (if wide
        then Some (record { flags = OPTIONAL_TRANSITIVE; value = from.now.value })
        else had.now) }
{
    if wide {
        Some(joined(OPTIONAL_TRANSITIVE, from.value(), &[], room))
    } else {
        copy_if(had, room)
    }
}

fn path4_of<'a>(
    path: &Option<Held<'_>>,
    had: &Option<Held<'_>>,
    room: &'a mut [u8],
) -> Option<Held<'a>>
    requires path { IfSome path.now (λ p. is_path 4 p.value ≡ true) }
    requires room { size_if path.now ≤ length room.old }
    requires had { size_if had.now ≤ length room.old }
    ensures { result ≡ or_other (beside has_wide path.now) had.now }
{
    match path {
        None => copy_if(had, room),
        Some(path) => or_wide(is_wide_path(path.value()), path, had, room),
    }
}

fn aggregator4_of<'a>(
    aggregator: &Option<Held<'_>>,
    had: &Option<Held<'_>>,
    room: &'a mut [u8],
) -> Option<Held<'a>>
    requires aggregator { IfSome aggregator.now (λ a. length a.value ≡ 8) }
    requires room { size_if aggregator.now ≤ length room.old }
    requires had { size_if had.now ≤ length room.old }
    ensures { result ≡ or_other (beside has_wide_as aggregator.now) had.now }
{
    match aggregator {
        None => copy_if(had, room),
        Some(from) => or_wide(is_wide_aggregator(from.value()), from, had, room),
    }
}

fn narrow_path_if<'a>(path: &Option<Held<'_>>, room: &'a mut [u8]) -> Option<Held<'a>>
    requires path { IfSome path.now (λ p. is_path 4 p.value ≡ true) }
    requires room { size_if path.now ≤ length room.old }
    ensures { result ≡ valued narrow_path path.now }
{
    match path {
        None => None,
        Some(path) => Some(narrow_path_of(path, room)),
    }
}

fn narrow_aggregator_if<'a>(aggregator: &Option<Held<'_>>, room: &'a mut [u8]) -> Option<Held<'a>>
    requires aggregator { IfSome aggregator.now (λ a. length a.value ≡ 8) }
    requires room { length room.old ≡ NARROW_AGGREGATOR }
    ensures { result ≡ valued in_two aggregator.now }
{
    match aggregator {
        None => None,
        Some(aggregator) => Some(narrow_aggregator_of(aggregator, room)),
    }
}

/// What becomes of the four attributes in a session with AS numbers of two octets, with each value in room of its own.
pub(crate) fn narrow_four<'a>(
    had: &Four<'_>,
    path_room: &'a mut [u8],
    aggregator_room: &'a mut [u8],
    path4_room: &'a mut [u8],
    aggregator4_room: &'a mut [u8],
) -> Four<'a>
    requires sound_path { IfSome had.now.path (λ p. is_path 4 p.value ≡ true) }
    requires sound_aggregator { IfSome had.now.aggregator (λ a. length a.value ≡ 8) }
    requires path { four_size had.now ≤ length path_room.old }
    requires aggregator { length aggregator_room.old ≡ NARROW_AGGREGATOR }
    requires path4 { four_size had.now ≤ length path4_room.old }
    requires aggregator4 { four_size had.now ≤ length aggregator4_room.old }
    ensures { result ≡ four_in_two had.now }
{
    Four {
        path: narrow_path_if(&had.path, path_room),
        aggregator: narrow_aggregator_if(&had.aggregator, aggregator_room),
        path4: path4_of(&had.path, &had.path4, path4_room),
        aggregator4: aggregator4_of(&had.aggregator, &had.aggregator4, aggregator4_room),
    }
}

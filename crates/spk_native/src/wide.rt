// Attributes with AS numbers of two octets in four, with what AS4_PATH and AS4_AGGREGATOR say of them (RFC 6793,
// section 4.2.3).
ghost use Rattle.std.specs.Prelude.{◌≡◌, ◌<◌, ◌≤◌, length, true, false, None, Some, if◌then◌else◌, IfErr, IfOk, IfSome};
ghost use Rattle.std.specs.Prelude.{MatchOption};
ghost use Rattle.std.specs.Option.{option_map};
ghost use Rattle.bgp_attr.specs.Paths.{path_ok as is_path};
ghost use Rattle.bgp_attr.specs.Routes.{Attribute};
ghost use Rattle.spk_native.specs.Receipt.{is_optional_transitive as has_flags, is_good_path, is_good_aggregator};
ghost use Rattle.spk_native.specs.Receipt.{aggregated_since as is_since, aggregator_with, good, path_with};
ghost use Rattle.spk_native.specs.Rebuilds.{size_if, valued, wide_four as four_in_four};

use crate::four::{Four, joined};
use bgp_attr::flags::{OPTIONAL_TRANSITIVE, PARTIAL_TRANSITIVE};
use bgp_attr::segments::AS_TRANS;
use bgp_attr::{MAX_CANONICAL, path_ok4};
use bgp_path::{merge_into, widen_into};
use xb_words::u16_at;
use xbgp_view::Held;

/// The octets of an AS4_AGGREGATOR: an AS number and an address.
pub(crate) const WIDE_AGGREGATOR: usize = 8;

/// A path has no room.
#[derive(Clone, Copy, Debug, PartialEq, Eq)]
pub(crate) struct TooLong;

fn is_optional_transitive(flags: u8) -> bool
    ensures { result ≡ has_flags flags }
{
    flags == OPTIONAL_TRANSITIVE || flags == PARTIAL_TRANSITIVE
}

// The value of an AS4_PATH, if it can be used.
fn good_path_in<'a>(path4: &Option<Held<'a>>) -> Option<&'a [u8]>
    ensures value { option_map (λ q. q.now) result ≡ good is_good_path path4.now }
    ensures path { IfSome result (λ q. is_path 4 q.now ≡ true) }
{
    match path4 {
        None => None,
        Some(held) => {
            if is_optional_transitive(held.flags()) && path_ok4(held.value()) {
                Some(held.value())
            } else {
                None
            }
        }
    }
}

// The value of an AS4_AGGREGATOR, if it can be used.
fn good_aggregator_in<'a>(aggregator4: &Option<Held<'a>>) -> Option<&'a [u8]>
    ensures value { option_map (λ w. w.now) result ≡ good is_good_aggregator aggregator4.now }
    ensures len { IfSome result (λ w. length w.now ≡ WIDE_AGGREGATOR) }
{
    match aggregator4 {
        None => None,
        Some(held) => {
            if is_optional_transitive(held.flags()) && held.value().len() == WIDE_AGGREGATOR {
                Some(held.value())
            } else {
                None
            }
        }
    }
}

// Whether AGGREGATOR was set after the last speaker of four octets.
fn aggregated_since(aggregator: &Option<Held<'_>>, wide: Option<&[u8]>) -> bool
    requires { IfSome aggregator.now (λ a. length a.value ≡ 6) }
    ensures { result ≡ is_since aggregator.now (option_map (λ w. w.now) wide.entry) }
{
    match (aggregator, wide) {
        (Some(held), Some(_)) => u32::from(u16_at(held.value(), 0)) != AS_TRANS,
        _ => false,
    }
}

// A value, except if a later one counts.
fn unless(since: bool, value: Option<&[u8]>) -> Option<&[u8]>
    ensures { result ≡ (if since then None else value.entry) }
{
    if since { None } else { value }
}

/// An AS_PATH in four octets a number, or None if it has no room.
pub(crate) fn wide_path_of<'a>(
    path: &Held<'_>,
    path4: Option<&[u8]>,
    room: &'a mut [u8],
) -> Option<Held<'a>>
    requires path { is_path 2 path.now.value ≡ true }
    requires path4 { IfSome path4 (λ q. is_path 4 q.now ≡ true) }
    requires room { length room.old ≤ MAX_CANONICAL }
    ensures { let value = path_with (option_map (λ q. q.now) path4.entry) path.now.value in
        MatchOption result (length room.old < length value)
        (λ h. h ≡ record { flags = path.now.flags; value = value }) }
{
    let len = match path4 {
        None => widen_into(path.value(), room)?,
        Some(path4) => merge_into(path.value(), path4, room)?,
    };
    Some(Held::new(path.flags(), &room[..len]))
}

// An AGGREGATOR with an AS number of four octets.
fn wide_aggregator_of<'a>(
    aggregator: &Held<'_>,
    wide: Option<&[u8]>,
    room: &'a mut [u8],
) -> Held<'a>
    requires aggregator { length aggregator.now.value ≡ 6 }
    requires wide { IfSome wide (λ w. length w.now ≡ WIDE_AGGREGATOR) }
    requires room { length room.old ≡ WIDE_AGGREGATOR }
    ensures { result ≡ record {
      flags = aggregator.now.flags;
      value = aggregator_with (option_map (λ w. w.now) wide.entry) aggregator.now.value;
    } }
{
    let value = aggregator.value();
    match wide {
        Some(wide) => joined(aggregator.flags(), wide, &[], room),
        None => {
            let asn = u32::from(u16_at(value, 0)).to_be_bytes();
            joined(aggregator.flags(), &asn, value.split_at(2).1, room)
        }
    }
}

fn wide_path_if<'a>(
    path: &Option<Held<'_>>,
    path4: Option<&[u8]>,
    room: &'a mut [u8],
) -> Result<Option<Held<'a>>, TooLong>
    requires path { IfSome path.now (λ p. is_path 2 p.value ≡ true) }
    requires path4 { IfSome path4 (λ q. is_path 4 q.now ≡ true) }
    requires room { length room.old ≤ MAX_CANONICAL }
    ensures held { IfOk result (λ h. h ≡ valued (path_with (option_map (λ q. q.now) path4.entry)) path.now) }
    ensures room { IfErr result (λ e.
        length room.old < size_if (valued (path_with (option_map (λ q. q.now) path4.entry)) path.now)) }
{
    match path {
        None => Ok(None),
        Some(path) => match wide_path_of(path, path4, room) {
            None => Err(TooLong),
            Some(wide) => Ok(Some(wide)),
        },
    }
}

fn wide_aggregator_if<'a>(
    aggregator: &Option<Held<'_>>,
    wide: Option<&[u8]>,
    room: &'a mut [u8],
) -> Option<Held<'a>>
    requires aggregator { IfSome aggregator.now (λ a. length a.value ≡ 6) }
    requires wide { IfSome wide (λ w. length w.now ≡ WIDE_AGGREGATOR) }
    requires room { length room.old ≡ WIDE_AGGREGATOR }
    ensures { result ≡ valued (aggregator_with (option_map (λ w. w.now) wide.entry)) aggregator.now }
{
    match aggregator {
        None => None,
        Some(aggregator) => Some(wide_aggregator_of(aggregator, wide, room)),
    }
}

/// What becomes of the four attributes of a route that was received in two octets, with each value in room of its own,
/// or TooLong if its AS_PATH has none.
pub(crate) fn wide_four<'a>(
    had: &Four<'_>,
    path_room: &'a mut [u8],
    aggregator_room: &'a mut [u8],
) -> Result<Four<'a>, TooLong>
    requires sound_path { IfSome had.now.path (λ p. is_path 2 p.value ≡ true) }
    requires sound_aggregator { IfSome had.now.aggregator (λ a. length a.value ≡ 6) }
    requires path { length path_room.old ≤ MAX_CANONICAL }
    requires aggregator { length aggregator_room.old ≡ WIDE_AGGREGATOR }
    ensures value { IfOk result (λ f. f ≡ four_in_four had.now) }
    ensures room { IfErr result (λ e. length path_room.old < size_if (four_in_four had.now).path) }
{
    let wide = good_aggregator_in(&had.aggregator4);
    let since = aggregated_since(&had.aggregator, wide);
    let wide_path = wide_path_if(
        &had.path,
        unless(since, good_path_in(&had.path4)),
        path_room,
    )?;
    let wide_aggregator = wide_aggregator_if(&had.aggregator, unless(since, wide), aggregator_room);
    Ok(Four {
        path: wide_path,
        aggregator: wide_aggregator,
        path4: None,
        aggregator4: None,
    })
}

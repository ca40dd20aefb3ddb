ghost use Rattle.std.specs.Prelude.{◌≡◌, ◌≤◌, ◌==◌, length};
ghost use Rattle.std.specs.Option.{option_map};
ghost use Rattle.xb_words.specs.Octets.{all_are};
ghost use Rattle.xb_wire.specs.Headers.{notification_of};
ghost use Rattle.xb_wire.specs.Messages.{header_fault, is_bad_length};

use crate::numbers::{
    EMPTY_UPDATE, HEADER, KEEPALIVE, LEAST_NOTIFICATION, LEAST_OPEN, MARKER, MAX_MESSAGE,
    NOTIFICATION, OPEN, UPDATE,
};
use xb_words::u16_at;

/// Why the header of a message is refused: its marker, its length field, or its type (RFC 4271, section 6.1).
#[derive(Clone, Copy, Debug, PartialEq, Eq)]
pub enum HeaderFault {
    Marker,
    Length(u16),
    Kind(u8),
}

// Whether all octets of the marker are 255.
fn has_marker(marker: &[u8]) -> bool
    ensures { result ≡ all_are 255 marker.now }
{
    marker.iter().all(|octet| *octet == 255)
}

// Whether a message of the type may not have the length.
fn has_bad_length(kind: u8, len: u16) -> bool
    ensures { result ≡ is_bad_length kind len }
{
    let len = usize::from(len);
    match kind {
        OPEN => len < LEAST_OPEN,
        UPDATE => len < EMPTY_UPDATE,
        NOTIFICATION => len < LEAST_NOTIFICATION,
        KEEPALIVE => len != HEADER,
        _ => false,
    }
}

/// The first check that the header at the front fails: the marker, the length field's range, the type, the length for
/// the type (RFC 4271, section 6.1). Octets after the header do not matter.
pub fn fault_in_header(octets: &[u8]) -> Option<HeaderFault>
    requires { HEADER ≤ length octets.now }
    ensures { option_map notification_of result ≡ header_fault octets.now }
{
    let len = u16_at(octets, MARKER);
    let kind = octets[MARKER + 2];
    if !has_marker(&octets[..MARKER]) {
        Some(HeaderFault::Marker)
    } else if usize::from(len) < HEADER || MAX_MESSAGE < usize::from(len) {
        Some(HeaderFault::Length(len))
    } else if kind == 0 || KEEPALIVE < kind {
        Some(HeaderFault::Kind(kind))
    } else if has_bad_length(kind, len) {
        Some(HeaderFault::Length(len))
    } else {
        None
    }
}

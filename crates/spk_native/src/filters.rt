// What is accepted from a peer and for a peer when no program answers.
ghost use Rattle.std.specs.Prelude.{◌≡◌};
ghost use Rattle.spk_native.specs.Filters.{accepts_inbound, accepts_outbound, has_as, is_next_hop};
ghost use Rattle.spk_native.specs.Filters.{is_internal as internal};

use crate::values::{number_at, value_at};
use bgp_attr::codes::{AS_PATH, NEXT_HOP};
use bgp_path::Segments;
use xb_domain::Side;
use xbgp_view::RouteView;

/// The kind of a peer whose AS differs from the speaker's.
pub const EXTERNAL: u8 = 1;

/// The kind of a peer whose AS is the speaker's.
pub const INTERNAL: u8 = 2;

// Whether an AS is in the AS_PATH of a route.
fn path_has<R: RouteView>(route: &R, asn: u32) -> bool
    ensures { result ≡ has_as asn (R.route route.now) }
{
    let Some(value) = value_at(route, AS_PATH) else {
        return false;
    };
    let Some(path) = Segments::wide(value) else {
        return false;
    };
    path.contains(asn)
}

// Whether the NEXT_HOP of a route is an address.
fn next_hop_is<R: RouteView>(route: &R, address: u32) -> bool
    ensures { result ≡ is_next_hop address (R.route route.now) }
{
    match number_at(route, NEXT_HOP) {
        Some(hop) => hop == address,
        None => false,
    }
}

/// Whether a route that a peer sent is accepted: the local AS is not in its path (RFC 4271, section 9.1.2), and its
/// NEXT_HOP is not the local address. Segments need not fill the AS_PATH: a value that is not a path has no AS.
pub fn inbound_native<R: RouteView>(route: &R, local: &Side) -> bool
    ensures { result ≡ accepts_inbound (R.route route.now) local.now }
{
    if next_hop_is(route, local.address) {
        return false;
    }
    !path_has(route, local.asn)
}

fn is_internal(side: &Side) -> bool
    ensures { result ≡ internal side.now }
{
    side.kind == INTERNAL
}

/// Whether the best route, which came from `source`, may be sent to a peer: the peer is not its source, and a route of
/// an internal peer is not sent to another (RFC 4271, section 9.2.1).
pub fn outbound_native(source: &Side, peer: &Side) -> bool
    ensures { result ≡ accepts_outbound source.now peer.now }
{
    !(source.number == peer.number || (is_internal(source) && is_internal(peer)))
}

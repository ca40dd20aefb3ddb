// The route of a section that a peer sent.
ghost use Rattle.std.specs.Prelude.{◌≡◌, ◌≤◌, length, nat_le};
ghost use Rattle.std.specs.Bool.{OnTrue};
ghost use Rattle.bgp_attr.specs.Paths.{width_of};
ghost use Rattle.bgp_attr.specs.Routes.{canon, route_of};
ghost use Rattle.spk_native.specs.Filters.{as_received};
ghost use Rattle.spk_native.specs.Receipt.{inflow};
ghost use Rattle.spk_native.specs.Values.{IsFaultless};

use bgp_attr::MAX_CANONICAL;
use bgp_attr::codes::LOCAL_PREF;
use spk_native::{EXTERNAL, widen_route};
use xb_domain::Side;
use xb_wire::numbers::MAX_MESSAGE;
use xbgp_view::Overlay;

// Makes a route what programs see of it: LOCAL_PREF of an external peer is removed.
fn drop_local_pref(route: &mut Overlay, peer: &Side)
    ensures { route.new ≡ record route.old { route = as_received peer.now route.old.route } }
{
    if peer.kind == EXTERNAL {
        let _ = route.unset(LOCAL_PREF);
    }
}

/// Makes it the route of a section that a peer sent in a session, in which AS numbers have four octets (`wide`) or two:
/// LOCAL_PREF of an external peer is removed, and AS numbers get four octets. False, with any route, if the canonical
/// section would then have more than [`MAX_MESSAGE`] octets.
pub fn read_route(route: &mut Overlay, section: &[u8], peer: &Side, wide: bool) -> bool
    requires short { length section.now ≤ MAX_CANONICAL }
    requires faultless { IsFaultless (width_of wide) (route_of section.now) }
    ensures fits { result
        ≡ nat_le (length (canon (inflow (as_received peer.now (route_of section.now)) wide))) MAX_MESSAGE }
    ensures route { OnTrue result (route.new.route ≡ inflow (as_received peer.now (route_of section.now)) wide) }
{
    route.read(section);
    drop_local_pref(route, peer);
    widen_route(route, wide)
}

//! Laws of the definitions. Each is the contract of a function that does nothing.
ghost use Rattle.std.specs.Prelude.{◌≡◌, List, ℕ};
ghost use Rattle.bgp_attr.specs.Routes.{IsRoute};
ghost use Rattle.xb_domain.specs.declared.point.Point.{Point};
ghost use Rattle.xbgp_helpers.specs.Changes.{changed_at};
ghost use Rattle.xbgp_helpers.specs.Worlds.{World};
ghost use Rattle.xbgp_manifest.specs.Manifests.{Manifest};
ghost use Rattle.xbgp_maps.specs.Mappings.{shapes_of};
ghost use Rattle.xbgp_points.specs.Chains.{chain, Faults};
ghost use Rattle.xbgp_points.specs.Engines.{KeepsRoute};

/// A chain leaves each part of the world that programs may not change at its point. So maps are written at receive and
/// inbound alone, and the route is edited there and at outbound.
pub fn parts_are_kept()
    ensures { (m : Manifest) (point : Point) (window : List ℕ) (w : World) (noted : Faults)
        → let left = (chain m point window w noted).world in left ≡ changed_at point w left }
{}

/// What a chain leaves of a route has ORIGIN, AS_PATH and NEXT_HOP, no fault, and at most 4,096 octets, each if the
/// route had it before.
pub fn routes_are_kept()
    ensures { (m : Manifest) (point : Point) (window : List ℕ) (w : World) (noted : Faults) → IsRoute w.route
        → KeepsRoute w.route ((chain m point window w noted).world).route }
{}

/// A chain leaves the shapes of maps.
pub fn shapes_are_kept()
    ensures { (m : Manifest) (point : Point) (window : List ℕ) (w : World) (noted : Faults)
        → shapes_of ((chain m point window w noted).world).maps ≡ shapes_of w.maps }
{}

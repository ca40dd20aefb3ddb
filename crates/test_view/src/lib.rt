//! Tests of xbgp_view from outside: a received section goes into an overlay in one pass and comes out as the canonical
//! section, and the edits and readers of a route on their happy paths.
#![tactic(auto)]

ghost use Rattle.std.specs.Prelude.{◌≡◌, ◌≤◌, length};
ghost use Rattle.bgp_attr.specs.Routes.{canon, route_of};

use bgp_attr::MAX_CANONICAL;
use xb_values::Buf;
use xbgp_view::{Overlay, SectionView, write_section};

/// Replaces the content of `out` by the canonical section of a received one, by way of an overlay.
pub fn canonical_by_overlay(route: &mut Overlay, section: &[u8], out: &mut Buf)
    requires short { length section.now ≤ MAX_CANONICAL }
    requires room { MAX_CANONICAL ≤ out.old.capacity }
    ensures { out.new ≡ record out.old { octets = canon (route_of section.now) } }
{
    route.read(section);
    write_section(route, out);
}

/// The same without an overlay.
pub fn canonical_in_place(section: &[u8], out: &mut Buf)
    requires short { length section.now ≤ MAX_CANONICAL }
    requires room { MAX_CANONICAL ≤ out.old.capacity }
    ensures { out.new ≡ record out.old { octets = canon (route_of section.now) } }
{
    write_section(&SectionView::new(section), out);
}

#[cfg(test)]
mod tests;

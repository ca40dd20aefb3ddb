//! Tests of spk_native from outside: a received section is filtered and ranked in place, the route of a section without
//! fault is sent on and takes the form of the other width of AS numbers, and three candidates of which the decision of
//! two at a time and the decision of the set leave different ones.
#![tactic(auto)]

ghost use Rattle.std.specs.Prelude.{◌≡◌, ◌≢◌, ◌≤◌, [], ◌∷◌, ◌++◌, false, length};
ghost use Rattle.std.specs.Bool.{OnTrue};
ghost use Rattle.bgp_attr.specs.Routes.{canon, route_of};
ghost use Rattle.spk_native.specs.Decision.{rank, survivor as survivor_in};
ghost use Rattle.spk_native.specs.Export.{carry, native_section as section_of};
ghost use Rattle.spk_native.specs.Filters.{accepts_inbound};
ghost use Rattle.spk_native.specs.Laws.{better_of};
ghost use Rattle.spk_native.specs.Receipt.{inflow, wire};
ghost use Rattle.spk_native.specs.Values.{HasNoFault};

use bgp_attr::MAX_CANONICAL;
use bgp_check::{check_section, check_section4};
use spk_native::{
    Rank, export_attrs, inbound_native, narrow_route, native_section, rank_of, survivor,
    widen_route,
};
use xb_domain::Side;
use xb_values::Buf;
use xb_wire::numbers::MAX_MESSAGE;
use xbgp_view::{Overlay, SectionView};

/// Whether the route of a received section is accepted.
pub fn is_accepted(section: &[u8], local: &Side) -> bool
    requires { length section.now ≤ MAX_CANONICAL }
    ensures { result ≡ accepts_inbound (route_of section.now) local.now }
{
    inbound_native(&SectionView::new(section), local)
}

/// What the route of a received section is compared by.
pub fn rank_in(section: &[u8], side: &Side, local_pref: u32, cost: u32) -> Rank
    requires short { length section.now ≤ MAX_CANONICAL }
    requires sound { HasNoFault (route_of section.now) }
    ensures { result ≡ rank (route_of section.now) side.now local_pref cost }
{
    rank_of(&SectionView::new(section), side, local_pref, cost)
}

/// Whether a section with AS numbers of four octets is that of an announcement without fault, and its route short
/// enough; `out` is then the section of what a peer is sent of the route, which is made in the overlay.
pub fn sent_on(
    section: &[u8],
    peer: &Side,
    local: &Side,
    overlay: &mut Overlay,
    out: &mut Buf,
) -> bool
    requires short { length section.now ≤ MAX_CANONICAL }
    requires room { MAX_CANONICAL ≤ out.old.capacity }
    ensures { OnTrue result (out.new ≡ record out.old {
      octets = section_of (carry (route_of section.now) peer.now peer.now local.now 100);
    }) }
{
    if check_section4(section, true).is_some() {
        return false;
    }
    overlay.read(section);
    if overlay.section_len() > MAX_MESSAGE {
        return false;
    }
    export_attrs(overlay, peer, peer, local, 100);
    native_section(overlay, out);
    true
}

/// Whether a section with AS numbers of two octets is that of an announcement without fault, and its route short enough
/// with AS numbers of four; `out` is then the section of that route, which is made in the overlay.
pub fn widened(section: &[u8], overlay: &mut Overlay, out: &mut Buf) -> bool
    requires { length section.now ≤ MAX_CANONICAL }
    ensures { OnTrue result (out.new ≡ record out.old {
      octets = out.old.octets ++ canon (inflow (route_of section.now) false);
    }) }
{
    if check_section(section, true).is_some() {
        return false;
    }
    overlay.read(section);
    widen_route(overlay, false) && overlay.section(out)
}

/// The same of a section with AS numbers of four octets, for a session with AS numbers of two.
pub fn narrowed(section: &[u8], overlay: &mut Overlay, out: &mut Buf) -> bool
    requires { length section.now ≤ MAX_CANONICAL }
    ensures { OnTrue result (out.new ≡ record out.old { octets = out.old.octets ++ wire section.now false }) }
{
    if check_section4(section, true).is_some() {
        return false;
    }
    overlay.read(section);
    narrow_route(overlay) && overlay.section(out)
}

/// The decision of two.
pub fn best_of_two(a: Rank, b: Rank) -> Rank
    requires { a.address ≢ b.address }
    ensures { result ≡ better_of a b }
{
    let ranks = [a, b];
    ranks[survivor(&ranks)]
}

/// The index of the best of three.
pub fn best_of_three(a: Rank, b: Rank, c: Rank) -> usize
    requires first { a.address ≢ b.address }
    requires ends { a.address ≢ c.address }
    requires last { b.address ≢ c.address }
    ensures { result ≡ survivor_in (a ∷ b ∷ c ∷ []) }
{
    survivor(&[a, b, c])
}

#[cfg(test)]
mod tests;

// Sections, and the form of a session, in which AS numbers have four octets or two.
ghost use Rattle.std.specs.Prelude.{◌≡◌, ◌≤◌, [], length, IfOk};
ghost use Rattle.bgp_attr.specs.Routes.{canon, route_of, IsRoute};
ghost use Rattle.spk_native.specs.Export.{native_section as section_of};
ghost use Rattle.spk_native.specs.Receipt.{narrow, wire};
ghost use Rattle.spk_native.specs.Values.{HasNoFault};
ghost use Rattle.spk_model.specs.Exporting.{short_enough};
ghost use Rattle.spk_routes.specs.Forms.{IsWritten};
ghost use Rattle.spk_routes.specs.Rooms.{HaveRoom};

use bgp_attr::MAX_CANONICAL;
use spk_native::{narrow_route, native_section, sends_all};
use std::alloc::{AllocError, Global};
use xb_values::Buf;
use xb_wire::numbers::MAX_SECTION;
use xbgp_view::{Overlay, RouteView};

/// The buffers of sections: what the native function writes, what programs give, and what is advertised.
#[derive(Drop)]
pub(crate) struct Sections {
    pub(crate) native: Buf,
    pub(crate) given: Buf,
    pub(crate) sent: Buf,
}

impl Sections {
    /// Empty buffers. The error is want of memory.
    pub(crate) fn make(alloc: Global) -> Result<Sections, AllocError>
        ensures { IfOk result (λ s. HaveRoom s × (s.sent.octets ≡ [])) }
    {
        Ok(Sections {
            native: Buf::make(alloc, MAX_CANONICAL)?,
            given: Buf::make(alloc, MAX_CANONICAL)?,
            sent: Buf::make(alloc, MAX_CANONICAL)?,
        })
    }
}

/// Shows contracts that an overlay has a route that a view may show.
pub(crate) fn see_shape(route: &Overlay)
    ensures { IsRoute route.now.route }
{
    let _ = route.code_from(0);
}

/// Replaces the content of `out` by the canonical section of the route of an overlay.
pub(crate) fn copy_section(route: &Overlay, out: &mut Buf)
    requires { out.old.capacity ≡ MAX_CANONICAL }
    ensures written { out.new ≡ record out.old { octets = canon route.now.route } }
    ensures route { route_of out.new.octets ≡ route.now.route }
{
    see_shape(route);
    out.clear();
    let _ = route.section(out);
}

// Writes what a route becomes for a session with AS numbers of two octets, and returns whether it is short enough.
fn write_narrow(route: &mut Overlay, out: &mut Buf) -> bool
    requires faultless { HasNoFault route.old.route }
    requires room { out.old.capacity ≡ MAX_CANONICAL }
    ensures written { IsWritten result out.new.octets (short_enough (canon (narrow route.old.route))) }
    ensures kept { route.new.kept ≡ route.old.kept }
    ensures capacity { out.new.capacity ≡ MAX_CANONICAL }
{
    if !narrow_route(route) {
        return false;
    }
    copy_section(route, out);
    true
}

/// Writes a section in the form of a session, and returns whether it is short enough to be sent.
pub(crate) fn write_form(section: &[u8], wide: bool, route: &mut Overlay, out: &mut Buf) -> bool
    requires short { length section.now ≤ MAX_CANONICAL }
    requires faultless { HasNoFault (route_of section.now) }
    requires room { out.old.capacity ≡ MAX_CANONICAL }
    ensures written { IsWritten result out.new.octets (short_enough (wire section.now wide)) }
    ensures capacity { out.new.capacity ≡ MAX_CANONICAL }
{
    if !wide {
        route.read(section);
        return write_narrow(route, out);
    }
    if section.len() > MAX_SECTION {
        return false;
    }
    out.replace(section);
    true
}

// Removes from a route what peers are not sent.
fn hold_back(route: &mut Overlay, spare: &mut Buf)
    requires { spare.old.capacity ≡ MAX_CANONICAL }
    ensures route { route.new ≡ record route.old { route = route_of (section_of route.old.route) } }
    ensures capacity { spare.new.capacity ≡ MAX_CANONICAL }
{
    see_shape(route);
    if sends_all(route) {
        return;
    }
    native_section(route, spare);
    route.read(spare.as_slice());
}

/// Writes what a peer is sent of a route in the form of its session, and returns whether it is short enough.
pub(crate) fn write_sent(route: &mut Overlay, wide: bool, out: &mut Buf) -> bool
    requires faultless { HasNoFault route.old.route }
    requires room { out.old.capacity ≡ MAX_CANONICAL }
    ensures written { IsWritten result out.new.octets (short_enough (wire (section_of route.old.route) wide)) }
    ensures kept { route.new.kept ≡ route.old.kept }
    ensures capacity { out.new.capacity ≡ MAX_CANONICAL }
{
    if wide {
        native_section(route, out);
        return out.len() <= MAX_SECTION;
    }
    see_shape(route);
    hold_back(route, out);
    write_narrow(route, out)
}

// What a view of a route shows, and its canonical section written from that alone.
ghost use Rattle.std.specs.Prelude.{◌≡◌, ◌+◌, ◌≤◌, ◌++◌, length, IfSome};
ghost use Rattle.bgp_attr.specs.Routes.{Route, IsRoute, attribute_at, canon, route_of};
ghost use Rattle.xbgp_view.specs.Sections.{entry_octets, IsCanonical};
ghost use Rattle.xbgp_view.specs.Views.{flags_and_length, code_from, copied, length_that_fits};

use crate::held::Held;
use crate::spell::append_attribute;
use bgp_attr::MAX_CANONICAL;
use xb_values::Buf;

/// A neutral route, however it is kept: flags and a value for some attribute codes, of which the canonical section has
/// at most [`MAX_CANONICAL`] octets.
pub trait RouteView {
    /// The route.
    ghost route: { Self → Route };

    /// The flags of an attribute and the length of its value, or None if the route has no such attribute.
    fn flags_len(&self, code: u8) -> Option<(u8, usize)>
        ensures shape { IsRoute (route self.now) }
        ensures value { result ≡ flags_and_length (route self.now) code };

    /// An attribute, or None if the route has no such attribute.
    fn attribute(&self, code: u8) -> Option<Held<'_>>
        ensures shape { IsRoute (route self.now) }
        ensures value { result ≡ attribute_at (route self.now) code };

    /// Copies the value of an attribute to the front of `out` and returns its length. None, with `out` unchanged, if
    /// the route has no such attribute or its value is longer than `out`.
    fn copy(&self, code: u8, out: &mut [u8]) -> Option<usize>
        ensures shape { IsRoute (route self.now) }
        ensures answer { result ≡ length_that_fits (attribute_at (route self.now) code) (length out.old) }
        ensures octets { out.new ≡ copied (attribute_at (route self.now) code) out.old };

    /// The least code of the route that is at least `from`, if any.
    fn code_from(&self, from: u16) -> Option<u8>
        ensures shape { IsRoute (route self.now) }
        ensures value { result ≡ code_from (route self.now) from };

    /// The canonical section of the route, or None if the view doesn't keep it as one slice.
    fn canonical_section(&self) -> Option<&[u8]>
        ensures shape { IfSome result (λ s. IsRoute (route self.now)) }
        ensures value { IfSome result (λ s. s.now ≡ canon (route self.now)) };
}

// Appends the attribute of a code, if the view has it.
fn append_entry<R: RouteView>(view: &R, code: u8, out: &mut Buf)
    requires { length out.old.octets + length (entry_octets code (attribute_at (R.route view.now) code))
        ≤ out.old.capacity }
    ensures { out.new ≡ record out.old {
      octets = out.old.octets ++ entry_octets code (attribute_at (R.route view.now) code);
    } }
{
    if let Some(held) = view.attribute(code) {
        append_attribute(out, code, held.flags(), held.value());
    }
}

// Replaces the content of `out` by the canonical section of the route that a view shows, attribute by attribute.
fn spell<R: RouteView>(view: &R, out: &mut Buf)
    requires { MAX_CANONICAL ≤ out.old.capacity }
    ensures written { out.new ≡ record out.old { octets = canon (R.route view.now) } }
    ensures canonical { IsCanonical out.new.octets }
    ensures route { route_of out.new.octets ≡ R.route view.now }
{
    let mut from = 0u16;
    out.clear();
    'codes: while let Some(code) = view.code_from(from) {
        append_entry(view, code, out);
        from = u16::from(code) + 1;
    }
}

/// Replaces the content of `out` by the canonical section of the route that a view shows.
pub fn write_section<R: RouteView>(view: &R, out: &mut Buf)
    requires { MAX_CANONICAL ≤ out.old.capacity }
    ensures written { out.new ≡ record out.old { octets = canon (R.route view.now) } }
    ensures canonical { IsCanonical out.new.octets }
    ensures route { route_of out.new.octets ≡ R.route view.now }
{
    match view.canonical_section() {
        Some(section) => out.replace(section),
        None => spell(view, out),
    }
}

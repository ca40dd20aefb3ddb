// A section that was received, as the canonical section of its route.
ghost use Rattle.std.specs.Prelude.{◌≡◌, ◌≤◌, length};
ghost use Rattle.std.specs.Bool.{OnTrue};
ghost use Rattle.bgp_attr.specs.Routes.{route_of};
ghost use Rattle.xbgp_view.specs.Sections.{IsCanonical};

use crate::section::next_attr;
use crate::spell::{append_attribute, form_flags, kept_flags};
use crate::{SectionView, write_section};
use bgp_attr::{Attrs, MAX_CANONICAL};
use xb_values::Buf;

// Whether a section is canonical: its codes rise, each attribute has the flags of its canonical form, and nothing is
// after the last one. That false is returned only for other sections is not proved, and matters to the speed alone.
fn is_canonical(section: &[u8]) -> bool
    requires { length section.now ≤ MAX_CANONICAL }
    ensures { OnTrue result (IsCanonical section.now) }
{
    let mut attrs = Attrs::new(section);
    let mut from = 0u16;
    'attrs: while let Some(step) = attrs.next() {
        let Ok(attr) = step else {
            return false;
        };
        if u16::from(attr.code) < from || attr.flags != form_flags(attr.flags, attr.value) {
            return false;
        }
        from = u16::from(attr.code) + 1;
    }
    true
}

// Replaces the content of `out` by the canonical section of the route of a section whose codes rise, and returns true,
// or false, with any content, if the codes don't rise.
fn read_rising(section: &[u8], out: &mut Buf) -> bool
    requires section { length section.now ≤ MAX_CANONICAL }
    requires room { out.old.capacity ≡ MAX_CANONICAL }
    ensures capacity { out.new.capacity ≡ MAX_CANONICAL }
    ensures canonical { OnTrue result (IsCanonical out.new.octets) }
    ensures route { OnTrue result (route_of out.new.octets ≡ route_of section.now) }
{
    let mut attrs = Attrs::new(section);
    let mut from = 0u16;
    out.clear();
    'attrs: while let Some(attr) = next_attr(&mut attrs) {
        if u16::from(attr.code) < from {
            return false;
        }
        append_attribute(out, attr.code, kept_flags(attr.flags), attr.value);
        from = u16::from(attr.code) + 1;
    }
    true
}

// Replaces the content of `out` by the canonical section of the route of a section.
fn read_any(section: &[u8], out: &mut Buf)
    requires section { length section.now ≤ MAX_CANONICAL }
    requires room { out.old.capacity ≡ MAX_CANONICAL }
    ensures capacity { out.new.capacity ≡ MAX_CANONICAL }
    ensures canonical { IsCanonical out.new.octets }
    ensures route { route_of out.new.octets ≡ route_of section.now }
{
    write_section(&SectionView::new(section), out);
}

/// Replaces the content of `out` by the canonical section of the route of a section, which it mostly is already.
pub(crate) fn read_section(section: &[u8], out: &mut Buf)
    requires section { length section.now ≤ MAX_CANONICAL }
    requires room { out.old.capacity ≡ MAX_CANONICAL }
    ensures capacity { out.new.capacity ≡ MAX_CANONICAL }
    ensures canonical { IsCanonical out.new.octets }
    ensures route { route_of out.new.octets ≡ route_of section.now }
{
    if is_canonical(section) {
        out.replace(section);
    } else if !read_rising(section, out) {
        read_any(section, out);
    }
}

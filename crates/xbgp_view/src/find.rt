// The attribute of a code in a canonical section, by a walk from its begin, and the gap for one.
ghost use Rattle.std.specs.Prelude.{◌≡◌, ◌+◌, ◌≤◌, ◌++◌, length, drop, nat_lt, ◌==◌, None, Some, IfSome, if◌then◌else◌};
ghost use Rattle.std.specs.Option.{option_map};
ghost use Rattle.bgp_attr.specs.Routes.{attribute_at, route_of};
ghost use Rattle.bgp_attr.specs.Walks.{attributes_from};
ghost use Rattle.xbgp_view.specs.Sections.{at_code, kept_attr, found_from, gap_of, IsCanonical, IsGap};
ghost use Rattle.bgp_attr.specs.Views.{attr_view};
ghost use Rattle.xbgp_view.specs.Views.{code_from};

use bgp_attr::{Attr, Attrs};
use xb_words::copy_at;

/// The offsets at which the attribute of a code begins and ends in a section. If there is none, both are the offset at
/// which it would begin.
#[derive(Clone, Copy, Debug, PartialEq, Eq)]
pub(crate) struct Gap {
    pub(crate) start: usize,
    pub(crate) end: usize,
}

impl Gap {
    /// Whether there is no attribute in it.
    pub(crate) fn is_empty(self) -> bool
        ensures { result ≡ (self.start == self.end) }
    {
        self.start == self.end
    }
}

// The first attribute of a section whose code is at least `from`.
fn first_from<'a>(section: &'a [u8], from: u16) -> Option<Attr<'a>>
    ensures { option_map attr_view result ≡ found_from from (attributes_from 0 section.now) }
{
    let mut attrs = Attrs::new(section);
    'attrs: while let Some(Ok(attr)) = attrs.next() {
        if u16::from(attr.code) >= from {
            return Some(attr);
        }
    }
    None
}

// The attribute that was found, if it has the code.
fn at_code<'a>(found: Option<Attr<'a>>, code: u8) -> Option<Attr<'a>>
    ensures { option_map kept_attr result ≡ at_code code (option_map attr_view found.entry) }
{
    match found {
        Some(attr) if attr.code == code => Some(attr),
        _ => None,
    }
}

/// The attribute of a code in a canonical section.
#[tactic(auto, using(crate::proofs::FoundLemmas::attribute_found))]
pub(crate) fn attribute_in<'a>(section: &'a [u8], code: u8) -> Option<Attr<'a>>
    requires { IsCanonical section.now }
    ensures { option_map kept_attr result ≡ attribute_at (route_of section.now) code }
{
    at_code(first_from(section, u16::from(code)), code)
}

/// The least code of a canonical section that is at least `from`.
#[tactic(auto, using(crate::proofs::FoundLemmas::code_found))]
pub(crate) fn code_in(section: &[u8], from: u16) -> Option<u8>
    requires { IsCanonical section.now }
    ensures { result ≡ code_from (route_of section.now) from }
{
    first_from(section, from).map(|attr| attr.code)
}

// The gap at the attribute that was found, or at the end.
fn gap_of(found: Option<Attr<'_>>, code: u8, len: usize) -> Gap
    requires { IfSome (option_map attr_view found) (λ f. f.at + length f.raw ≤ len) }
    ensures { (result.start, result.end) ≡ gap_of code len (option_map attr_view found.entry) }
{
    match found {
        None => Gap {
            start: len,
            end: len,
        },
        Some(attr) if attr.code == code => Gap {
            start: attr.at,
            end: attr.at + attr.raw.len(),
        },
        Some(attr) => Gap {
            start: attr.at,
            end: attr.at,
        },
    }
}

/// The gap of a code in a canonical section.
pub(crate) fn gap_at(section: &[u8], code: u8) -> Gap
    requires { IsCanonical section.now }
    ensures { IsGap code section.now (result.start, result.end) }
{
    gap_of(first_from(section, u16::from(code)), code, section.len())
}

/// Copies a value to the front of a slice and returns its length, or None if it is longer than the slice.
pub fn copy_value(value: &[u8], out: &mut [u8]) -> Option<usize>
    ensures answer { result ≡ (if nat_lt (length out.old) (length value.now) then None else Some (length value.now)) }
    ensures octets { out.new ≡ (if nat_lt (length out.old) (length value.now)
        then out.old
        else value.now ++ drop (length value.now) out.old) }
{
    if out.len() < value.len() {
        return None;
    }
    copy_at(out, 0, value);
    Some(value.len())
}

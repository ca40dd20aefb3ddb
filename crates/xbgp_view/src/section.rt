// A section of path attributes in place, as a view.
ghost use Rattle.std.specs.Prelude.{◌≡◌, ◌≤◌, ◌∷◌, [], length, is_some, Ok, IfSome, IfNone};
ghost use Rattle.std.specs.Option.{option_map};
ghost use Rattle.bgp_attr.specs.Routes.{attribute_at, route_of, IsRoute};
ghost use Rattle.bgp_attr.specs.Views.{attr_view};
ghost use Rattle.xbgp_view.specs.Indexes.{index_route, entries_of};
ghost use Rattle.xbgp_view.specs.Sections.{kept_attr};
ghost use Rattle.xbgp_view.specs.Views.{code_from};

use crate::RouteView;
use crate::find::copy_value;
use crate::held::Held;
use crate::spell::kept_flags;
use bgp_attr::{Attr, Attrs, MAX_CANONICAL};
use std::marker::Model;

// The codes that an attribute may have are 0 to 255.
const CODES: usize = 256;

/// A section of path attributes in place, as the route that it is read as: of the attributes of one code the last one
/// counts, and octets after the last whole attribute don't.
#[derive(Drop)]
pub struct SectionView<'a> {
    // The attribute of each code.
    index: [Option<Attr<'a>>; CODES],
}

impl<'a> Model for SectionView<'a> {
    ghost use Rattle.bgp_attr.specs.Routes.{Route, IsRoute};
    ghost use Rattle.xbgp_view.specs.Indexes.{index_route};

    ghost Value = { Route };

    ghost view = { λ v. index_route 0 v.index };

    ghost invariant = { λ v. IsRoute (index_route 0 v.index) };
}

// The attribute of a code in an index, if there is one.
fn attr_of<'a>(index: &[Option<Attr<'a>>; CODES], code: u8) -> Option<Attr<'a>>
    ensures { option_map kept_attr result ≡ attribute_at (index_route 0 index.now) code }
{
    index[usize::from(code)]
}

// Whether an index has an attribute of a code.
fn has_code(index: &[Option<Attr<'_>>; CODES], code: u8) -> bool
    ensures { result ≡ is_some (attribute_at (index_route 0 index.now) code) }
{
    attr_of(index, code).is_some()
}

// The least code of an index that is at least `from`.
fn least_code(index: &[Option<Attr<'_>>; CODES], from: u16) -> Option<u8>
    requires { IsRoute (index_route 0 index.now) }
    ensures { result ≡ code_from (index_route 0 index.now) from }
{
    'codes: for code in from..CODES as u16 {
        if has_code(index, code as u8) {
            return Some(code as u8);
        }
    }
    None
}

/// The next whole attribute of a walk, if there is one.
pub(crate) fn next_attr<'a>(attrs: &mut Attrs<'a>) -> Option<Attr<'a>>
    ensures item { IfSome result (λ a. attrs.old ≡ Ok (attr_view a) ∷ attrs.new) }
    ensures end { IfNone result (entries_of attrs.old ≡ []) }
{
    match attrs.next() {
        Some(Ok(attr)) => Some(attr),
        Some(Err(_)) => None,
        None => None,
    }
}

impl<'a> SectionView<'a> {
    /// The route of a section, which is walked over once.
    pub fn new(section: &'a [u8]) -> SectionView<'a>
        requires { length section.now ≤ MAX_CANONICAL }
        ensures { result ≡ route_of section.now }
    {
        let mut index = [None; CODES];
        let mut attrs = Attrs::new(section);
        'attrs: while let Some(attr) = next_attr(&mut attrs) {
            index[usize::from(attr.code)] = Some(attr);
        }
        SectionView { index }
    }

    // The attribute of a code, if the section has one.
    fn found(&self, code: u8) -> Option<Attr<'a>>
        ensures shape { IsRoute self.now }
        ensures value { option_map kept_attr result ≡ attribute_at self.now code }
    {
        attr_of(&self.index, code)
    }
}

impl RouteView for SectionView<'_> {
    ghost route = { λ v. v };

    fn flags_len(&self, code: u8) -> Option<(u8, usize)> {
        let attr = self.found(code)?;
        Some((kept_flags(attr.flags), attr.value.len()))
    }

    fn attribute(&self, code: u8) -> Option<Held<'_>> {
        let attr = self.found(code)?;
        Some(Held::of(attr))
    }

    fn copy(&self, code: u8, out: &mut [u8]) -> Option<usize> {
        let attr = self.found(code)?;
        copy_value(attr.value, out)
    }

    fn code_from(&self, from: u16) -> Option<u8> {
        least_code(&self.index, from)
    }

    fn canonical_section(&self) -> Option<&[u8]> {
        None
    }
}

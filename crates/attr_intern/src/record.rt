// A record: a canonical section, and where each attribute stands in it.
ghost use Rattle.std.specs.Prelude.{◌≡◌, ◌+◌, ◌==◌, ◌++◌, ◌≤◌, length, find, nat_le, IfOk};
ghost use Rattle.std.specs.Option.{option_map};
ghost use Rattle.bgp_attr.specs.Routes.{attribute_at, canon, route_of};
ghost use Rattle.xbgp_view.specs.Sections.{entry_octets, IsCanonical};
ghost use Rattle.attr_intern.specs.Fields.{attribute_in, fields_at, fields_from};

use bgp_attr::MAX_CANONICAL;
use std::alloc::{AllocError, Global};
use std::marker::Model;
use xbgp_view::{Held, RouteView, copy_value};

// The octets before a value, by its length: flags, code, and a length of one octet or of two.
const SHORT_HEADER: u16 = 3;

const LONG_HEADER: u16 = 4;

// The longest value whose length has one octet.
const MAX_SHORT: usize = 255;

/// Where an attribute stands in a section: its code, its flags, and the offset and the length of its value.
#[derive(Clone, Copy, Debug)]
pub(crate) struct Field {
    code: u8,
    flags: u8,
    start: u16,
    len: u16,
}

/// A neutral route as its canonical section, with a field for each attribute. A search for a code goes through the
/// fields, which are as many as the route has attributes.
#[derive(Drop)]
pub struct Record {
    section: Vec<u8>,
    fields: Vec<Field>,
}

impl Model for Record {
    ghost use Rattle.std.specs.Prelude.{◌≡◌};
    ghost use Rattle.bgp_attr.specs.Routes.{Route, route_of};
    ghost use Rattle.xbgp_view.specs.Sections.{IsCanonical};
    ghost use Rattle.attr_intern.specs.Fields.{fields_from};

    ghost Value = { Route };

    ghost view = { λ r. route_of r.section.items };

    ghost invariant = { λ r.
        IsCanonical r.section.items
        × (r.fields.items ≡ fields_from 0 (route_of r.section.items)) };
}

// Appends the field of the attribute of a code, if the view has it, which stands at an offset, and returns the offset
// after it. The error is want of memory.
fn push_field<R: RouteView>(
    view: &R,
    code: u8,
    at: u16,
    fields: &mut Vec<Field>,
) -> Result<u16, AllocError>
    requires { at + length (entry_octets code (attribute_at (R.route view.now) code)) ≤ MAX_CANONICAL }
    ensures next { IfOk result (λ n.
        n ≡ at + length (entry_octets code (attribute_at (R.route view.now) code))) }
    ensures field { IfOk result (λ _.
        fields.new.items ≡ fields.old.items ++ fields_at at code (attribute_at (R.route view.now) code)) }
{
    let Some((flags, len)) = view.flags_len(code) else {
        return Ok(at);
    };
    let header = if len > MAX_SHORT {
        LONG_HEADER
    } else {
        SHORT_HEADER
    };
    let start = at + header;
    let len = len as u16;
    fields.push(Field {
        code,
        flags,
        start,
        len,
    })?;
    Ok(start + len)
}

// The fields of the canonical section of the route that a view shows. The error is want of memory.
fn fields_of<R: RouteView>(alloc: Global, view: &R) -> Result<Vec<Field>, AllocError>
    ensures { IfOk result (λ fields. fields.items ≡ fields_from 0 (R.route view.now)) }
{
    let mut fields = Vec::new(alloc);
    let mut at = 0u16;
    let mut from = 0u16;
    'codes: while let Some(code) = view.code_from(from) {
        at = push_field(view, code, at, &mut fields)?;
        from = u16::from(code) + 1;
    }
    Ok(fields)
}

// The field of a code, if there is one.
fn field_at(fields: &[Field], code: u8) -> Option<&Field>
    ensures { option_map (λ f. f.now) result ≡ find (λ f. f.code == code) fields.now }
{
    fields.iter().find(|field| field.code == code)
}

// The first field whose code is at least `from`.
fn field_from(fields: &[Field], from: u16) -> Option<&Field>
    ensures { option_map (λ f. f.now) result ≡ find (λ f. nat_le from f.code) fields.now }
{
    fields.iter().find(|field| u16::from(field.code) >= from)
}

// The attribute where a field says.
fn held_in<'a>(section: &'a [u8], field: &Field) -> Held<'a>
    requires inside { field.now.start + field.now.len ≤ length section.now }
    requires short { length section.now ≤ MAX_CANONICAL }
    ensures { result ≡ attribute_in section.now field.now }
{
    let start = usize::from(field.start);
    let end = start + usize::from(field.len);
    Held::new(field.flags, &section[start..end])
}

impl Record {
    // A copy of the route that a view shows, whose canonical section is `section`. The error is want of memory.
    pub(crate) fn copy_of<R: RouteView>(
        alloc: Global,
        view: &R,
        section: &[u8],
    ) -> Result<Record, AllocError>
        requires canonical { IsCanonical section.now }
        requires route { route_of section.now ≡ R.route view.now }
        ensures { IfOk result (λ r. r ≡ R.route view.now) }
    {
        Ok(Record {
            section: Vec::from_slice(alloc, section)?,
            fields: fields_of(alloc, view)?,
        })
    }

    /// The canonical section of the route.
    pub fn section(&self) -> &[u8]
        ensures value { result.now ≡ canon self.now }
        ensures bound { length result.now ≤ MAX_CANONICAL }
    {
        self.section.as_slice()
    }
}

impl RouteView for Record {
    ghost route = { λ r. r };

    fn flags_len(&self, code: u8) -> Option<(u8, usize)> {
        let held = self.attribute(code)?;
        Some((held.flags(), held.value().len()))
    }

    fn attribute(&self, code: u8) -> Option<Held<'_>> {
        let field = field_at(&self.fields, code)?;
        Some(held_in(self.section.as_slice(), field))
    }

    fn copy(&self, code: u8, out: &mut [u8]) -> Option<usize> {
        copy_value(self.attribute(code)?.value(), out)
    }

    fn code_from(&self, from: u16) -> Option<u8> {
        let field = field_from(&self.fields, from)?;
        Some(field.code)
    }

    fn canonical_section(&self) -> Option<&[u8]> {
        Some(self.section.as_slice())
    }
}

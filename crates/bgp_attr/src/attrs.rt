// The walk over a section: an attribute at a time is split off the octets that are left.
ghost use Rattle.std.specs.Prelude.{◌≡◌, ◌≤◌, ◌∷◌, [], Some, IfNone, IfSome, length, slice_index};
ghost use Rattle.bgp_attr.specs.Attributes.{attribute_size, has_long_length, header_size};
ghost use Rattle.bgp_attr.specs.Walks.{attributes_from, found_attr};
ghost use Rattle.bgp_attr.specs.Views.{attr_step_view};

use crate::flags::EXTENDED_LENGTH;
use std::marker::Model;
use xb_words::u16_at;

/// An attribute as received. `raw` is the whole of it, `value` is `raw` without its header, and `at` is the offset of
/// its first octet in the section, from 0.
#[derive(Clone, Copy, Debug, PartialEq, Eq)]
pub struct Attr<'a> {
    pub flags: u8,
    pub code: u8,
    pub value: &'a [u8],
    pub raw: &'a [u8],
    pub at: usize,
}

/// An attribute that runs past the end of the section, and the offset at which it begins.
#[derive(Clone, Copy, Debug, PartialEq, Eq)]
pub struct Overrun {
    pub at: usize,
}

/// Walks over the attributes of a section. Contracts see what is still to come.
#[derive(Drop)]
pub struct Attrs<'a> {
    rest: &'a [u8],
    at: usize,
}

impl<'a> Model for Attrs<'a> {
    ghost use Rattle.std.specs.Prelude.{List, Result, length, ◌+◌, ◌<◌, ◌^◌};
    ghost use Rattle.bgp_attr.specs.declared.attrs.Overrun.{Overrun};
    ghost use Rattle.bgp_attr.specs.Walks.{attributes_from, FoundAttr};

    ghost Value = { List (Result FoundAttr Overrun) };

    ghost view = { λ a. attributes_from a.at a.rest.now };

    ghost invariant = { λ a. a.at + length a.rest.now < 2 ^ 64 };
}

fn is_extended(flags: u8) -> bool
    ensures { result ≡ has_long_length flags }
{
    flags & EXTENDED_LENGTH != 0
}

fn header_len(flags: u8) -> usize
    ensures { result ≡ header_size flags }
{
    if is_extended(flags) { 4 } else { 3 }
}

// The length of the attribute at the front, header included. None if it runs past the end.
fn size_of(octets: &[u8]) -> Option<usize>
    ensures size { result ≡ attribute_size octets.now }
    ensures header { IfSome result (λ n. header_size (slice_index octets.now 0) ≤ n) }
    ensures within { IfSome result (λ n. n ≤ length octets.now) }
{
    let header = header_len(*octets.first()?);
    if octets.len() < header {
        return None;
    }
    let value = if header == 4 {
        usize::from(u16_at(octets, 2))
    } else {
        usize::from(octets[2])
    };
    if octets.len() < header + value {
        return None;
    }
    Some(header + value)
}

// The attribute whose octets these are.
fn attr_at<'a>(raw: &'a [u8], at: usize) -> Attr<'a>
    requires { header_size (slice_index raw.now 0) ≤ length raw.now }
    ensures { attr_step_view (Ok result) ≡ Ok (found_attr at raw.now) }
{
    Attr {
        flags: raw[0],
        code: raw[1],
        value: &raw[header_len(raw[0])..],
        raw,
        at,
    }
}

impl<'a> Attrs<'a> {
    /// A walk over all attributes of a section, in order.
    pub fn new(section: &'a [u8]) -> Attrs<'a>
        ensures { result ≡ attributes_from 0 section.now }
    {
        Attrs {
            rest: section,
            at: 0,
        }
    }

    /// The next attribute, or the overrun that ends the walk. None at the end of the section, and after an overrun.
    #[tactic(auto, using(crate::proofs::WalksLemmas::walk_steps))]
    pub fn next(&mut self) -> Option<Result<Attr<'a>, Overrun>>
        ensures item { IfSome result (λ r. self.old ≡ attr_step_view r ∷ self.new) }
        ensures end { IfNone result ((self.old ≡ []) × (self.new ≡ [])) }
    {
        if self.rest.is_empty() {
            return None;
        }
        let at = self.at;
        match size_of(self.rest) {
            Some(size) => {
                let (raw, rest) = self.rest.split_at(size);
                self.rest = rest;
                self.at = at + size;
                Some(Ok(attr_at(raw, at)))
            }
            None => {
                self.rest = &[];
                Some(Err(Overrun { at }))
            }
        }
    }
}

// One attribute of a route, lent by what keeps the route.
ghost use Rattle.std.specs.Prelude.{◌≡◌, ◌≤◌, length};
ghost use Rattle.xbgp_view.specs.Sections.{kept_attr};

use crate::spell::kept_flags;
use bgp_attr::{Attr, MAX_CANONICAL};
use std::marker::Model;

/// An attribute of a route: the flags that a route keeps, and the value, which is lent.
#[derive(Drop)]
pub struct Held<'a> {
    flags: u8,
    value: &'a [u8],
}

impl<'a> Model for Held<'a> {
    ghost use Rattle.std.specs.Prelude.{◌≤◌, length};
    ghost use Rattle.bgp_attr.specs.declared.TheConstants.{MAX_CANONICAL};
    ghost use Rattle.bgp_attr.specs.Routes.{Attribute};

    ghost Value = { Attribute };

    ghost view = { λ h. record { flags = h.flags; value = h.value.now } };

    ghost invariant = { λ h. length h.value.now ≤ MAX_CANONICAL };
}

impl<'a> Held<'a> {
    /// An attribute with these flags and this value.
    pub fn new(flags: u8, value: &'a [u8]) -> Held<'a>
        requires { length value.now ≤ MAX_CANONICAL }
        ensures { result ≡ record { flags = flags; value = value.now } }
    {
        Held { flags, value }
    }

    // What a route has of an attribute that was received.
    pub(crate) fn of(attr: Attr<'a>) -> Held<'a>
        requires { length attr.value.now ≤ MAX_CANONICAL }
        ensures { result ≡ kept_attr attr.entry }
    {
        Held::new(kept_flags(attr.flags), attr.value)
    }

    /// The flags.
    pub fn flags(&self) -> u8
        ensures { result ≡ self.now.flags }
    {
        self.flags
    }

    /// The octets of the value.
    pub fn value(&self) -> &'a [u8]
        ensures value { result.now ≡ self.now.value }
        ensures bound { length result.now ≤ MAX_CANONICAL }
    {
        self.value
    }
}

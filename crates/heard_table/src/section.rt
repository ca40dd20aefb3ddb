// The octets of a section, as part of the stream.
ghost use Rattle.std.specs.Prelude.{◌≡◌};

use std::marker::Model;

/// The octets of a section of path attributes, in the stream, which is not copied. Contracts see the octets.
#[derive(Drop)]
pub struct Section<'a> {
    octets: &'a [u8],
}

impl<'a> Model for Section<'a> {
    ghost use Rattle.std.specs.Prelude.{ℕ, List};

    ghost Value = { List ℕ };

    ghost view = { λ s. s.octets.now };
}

impl<'a> Section<'a> {
    pub fn new(octets: &'a [u8]) -> Section<'a>
        ensures { result ≡ octets.now }
    {
        Section { octets }
    }

    pub fn as_slice(&self) -> &'a [u8]
        ensures { result.now ≡ self.now }
    {
        self.octets
    }
}

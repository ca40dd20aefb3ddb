// The parts of an UPDATE.
ghost use Rattle.std.specs.Prelude.{◌≡◌, IfSome};
ghost use Rattle.xb_wire.specs.Messages.{update_of};
ghost use Rattle.bgp_update.specs.Joins.{Joins};

use std::marker::Model;
use xb_words::u16_at;

/// The parts of an UPDATE, each a slice of its body (RFC 4271, section 4.3).
#[derive(Drop)]
pub struct UpdateView<'a> {
    withdrawn: &'a [u8],
    section: &'a [u8],
    nlri: &'a [u8],
}

impl<'a> Model for UpdateView<'a> {
    ghost use Rattle.xb_wire.specs.Messages.{Update};

    ghost Value = { Update };

    ghost view = { λ u. record { withdrawn = u.withdrawn.now; section = u.section.now; nlri = u.nlri.now } };
}

impl<'a> UpdateView<'a> {
    /// The parts of an UPDATE's body, or None if its two length fields do not fit it.
    pub fn new(body: &'a [u8]) -> Option<UpdateView<'a>>
        ensures parts { result ≡ update_of body.now }
        ensures joins { IfSome result (Joins body.now) }
    {
        if body.len() < 4 {
            return None;
        }
        let withdrawn_len = usize::from(u16_at(body, 0));
        if body.len() < 4 + withdrawn_len {
            return None;
        }
        let section_len = usize::from(u16_at(body, 2 + withdrawn_len));
        if body.len() < 4 + withdrawn_len + section_len {
            return None;
        }
        Some(UpdateView {
            withdrawn: &body[2..2 + withdrawn_len],
            section: &body[4 + withdrawn_len..4 + withdrawn_len + section_len],
            nlri: body.split_at(4 + withdrawn_len + section_len).1,
        })
    }

    /// The octets of the withdrawn prefixes.
    pub fn withdrawn(&self) -> &'a [u8]
        ensures { result.now ≡ self.now.withdrawn }
    {
        self.withdrawn
    }

    /// The octets of the path attributes.
    pub fn section(&self) -> &'a [u8]
        ensures { result.now ≡ self.now.section }
    {
        self.section
    }

    /// The octets of the announced prefixes.
    pub fn nlri(&self) -> &'a [u8]
        ensures { result.now ≡ self.now.nlri }
    {
        self.nlri
    }
}

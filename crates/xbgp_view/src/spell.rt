// The canonical form of one attribute.
ghost use Rattle.std.specs.Prelude.{◌≡◌, ℕ, ◌+◌, ◌<◌, ◌≤◌, ◌∷◌, ◌++◌, length};
ghost use Rattle.xb_words.specs.Octets.{two_octets};
ghost use Rattle.bgp_attr.specs.Routes.{canonical, kept_flags};
ghost use Rattle.xbgp_view.specs.Sections.{form_flags};

use bgp_attr::MAX_CANONICAL;
use bgp_attr::flags::{EXTENDED_LENGTH, KEPT};
use xb_values::Buf;

// The most octets of a value whose length has one octet (RFC 4271, section 4.3).
const MAX_SHORT: usize = 255;

/// The flags that a route keeps of those that were received.
pub(crate) fn kept_flags(flags: u8) -> u8
    ensures { result ≡ kept_flags flags }
{
    flags & KEPT
}

/// The length of an attribute with this value, header included.
pub(crate) fn spelled_len(value: &[u8]) -> usize
    ensures value { (code flags : ℕ) → result ≡ length (canonical (code, record { flags = flags; value = value.now })) }
    ensures bound { result ≤ length value.now + 4 }
{
    if value.len() > MAX_SHORT {
        4 + value.len()
    } else {
        3 + value.len()
    }
}

// Sets the extended-length flag, which stored flags never have.
#[tactic(auto, using(crate::proofs::CanonicalLemmas::extended_is_or))]
fn extended(flags: u8) -> u8
    requires { kept_flags flags ≡ flags }
    ensures { result ≡ flags + EXTENDED_LENGTH }
{
    flags | EXTENDED_LENGTH
}

/// The flags that an attribute has in its canonical form, by those that were received.
pub(crate) fn form_flags(flags: u8, value: &[u8]) -> u8
    ensures { result ≡ form_flags flags value.now }
{
    if value.len() > MAX_SHORT {
        extended(kept_flags(flags))
    } else {
        kept_flags(flags)
    }
}

// Appends an attribute whose length has two octets.
fn append_long(out: &mut Buf, code: u8, flags: u8, value: &[u8])
    requires room { length out.old.octets + (4 + length value.now) ≤ out.old.capacity }
    requires kept { kept_flags flags ≡ flags }
    requires short { length value.now ≤ MAX_CANONICAL }
    ensures { out.new ≡ record out.old {
      octets = out.old.octets ++ ((flags + EXTENDED_LENGTH) ∷ code ∷ two_octets (length value.now) ++ value.now);
    } }
{
    let [high, low] = (value.len() as u16).to_be_bytes();
    out.append(&[extended(flags), code, high, low]);
    out.append(value);
}

// Appends an attribute whose length has one octet.
fn append_short(out: &mut Buf, code: u8, flags: u8, value: &[u8])
    requires room { length out.old.octets + (3 + length value.now) ≤ out.old.capacity }
    requires short { length value.now ≤ MAX_SHORT }
    ensures { out.new ≡ record out.old { octets = out.old.octets ++ (flags ∷ code ∷ length value.now ∷ value.now) } }
{
    out.append(&[flags, code, value.len() as u8]);
    out.append(value);
}

/// Appends an attribute in its canonical form, for which there is room. Its flags are those that a route keeps.
pub fn append_attribute(out: &mut Buf, code: u8, flags: u8, value: &[u8])
    requires room { length out.old.octets + length (canonical (code, record { flags = flags; value = value.now }))
        ≤ out.old.capacity }
    requires kept { kept_flags flags ≡ flags }
    requires short { length value.now ≤ MAX_CANONICAL }
    ensures { out.new ≡ record out.old {
      octets = out.old.octets ++ canonical (code, record { flags = flags; value = value.now });
    } }
{
    if value.len() > MAX_SHORT {
        append_long(out, code, flags, value);
    } else {
        append_short(out, code, flags, value);
    }
}

// What a NOTIFICATION says about an UPDATE (RFC 4271, sections 4.5 and 6.3).
ghost use Rattle.std.specs.Prelude.{◌≡◌, ◌≤◌, [], length};
ghost use Rattle.xb_wire.specs.Views.{notice_view};
ghost use Rattle.bgp_check.specs.Judgement.{attr_notice, update_error};

use bgp_attr::AttrFault;
use xb_wire::Notice;
use xb_wire::numbers::{
    ATTRIBUTE_FLAGS_ERROR, ATTRIBUTE_LENGTH_ERROR, INVALID_NETWORK_FIELD, INVALID_NEXT_HOP,
    INVALID_ORIGIN, MALFORMED_AS_PATH, MALFORMED_ATTRIBUTE_LIST, MISSING_WELL_KNOWN_ATTRIBUTE,
    UNRECOGNIZED_WELL_KNOWN_ATTRIBUTE, UPDATE_MESSAGE_ERROR,
};

fn about_update(subcode: u8, extra: &[u8]) -> Notice<'_>
    ensures says { notice_view result ≡ update_error subcode extra.now }
    ensures data { result.extra.now ≡ extra.now }
{
    Notice {
        code: UPDATE_MESSAGE_ERROR,
        subcode,
        extra,
    }
}

pub(crate) fn malformed() -> Notice<'static>
    ensures says { notice_view result ≡ update_error MALFORMED_ATTRIBUTE_LIST [] }
    ensures data { result.extra.now ≡ [] }
{
    about_update(MALFORMED_ATTRIBUTE_LIST, &[])
}

pub(crate) fn bad_prefix() -> Notice<'static>
    ensures says { notice_view result ≡ update_error INVALID_NETWORK_FIELD [] }
    ensures data { result.extra.now ≡ [] }
{
    about_update(INVALID_NETWORK_FIELD, &[])
}

// The notice that an attribute is missing, with its code as data.
pub(crate) fn missing(code: &'static [u8]) -> Notice<'static>
    ensures says { notice_view result ≡ update_error MISSING_WELL_KNOWN_ATTRIBUTE code.now }
    ensures data { result.extra.now ≡ code.now }
{
    about_update(MISSING_WELL_KNOWN_ATTRIBUTE, code)
}

// The notice of an attribute's fault, `raw` being all its octets.
pub(crate) fn of_attribute(raw: &[u8], fault: AttrFault) -> Notice<'_>
    ensures { notice_view result ≡ attr_notice raw.now fault }
{
    match fault {
        AttrFault::Unrecognized => about_update(UNRECOGNIZED_WELL_KNOWN_ATTRIBUTE, raw),
        AttrFault::Flags => about_update(ATTRIBUTE_FLAGS_ERROR, raw),
        AttrFault::Length => about_update(ATTRIBUTE_LENGTH_ERROR, raw),
        AttrFault::Origin => about_update(INVALID_ORIGIN, raw),
        AttrFault::NextHop => about_update(INVALID_NEXT_HOP, raw),
        AttrFault::Path => about_update(MALFORMED_AS_PATH, &[]),
    }
}

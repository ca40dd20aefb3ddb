// Messages other than UPDATE.
ghost use Rattle.std.specs.Prelude.{◌≡◌, ◌≤◌, ◌<◌, ◌^◌, length};
ghost use Rattle.xb_wire.specs.Messages.{IsMessage};
ghost use Rattle.bgp_write.specs.Written.{Replaces, as_field, header, open_front, open_message, wide_open_message};
ghost use Rattle.bgp_write.specs.Written.{keepalive_message, notice_message};

use bgp_attr::segments::AS_TRANS;
use bgp_open::{CAPABILITIES, FOUR_OCTET_AS};
use xb_values::Buf;
use xb_wire::numbers::{
    HEADER, KEEPALIVE, LEAST_NOTIFICATION, LEAST_OPEN, MARKER, MAX_BODY, MAX_MESSAGE,
    MAX_NOTICE_DATA, NOTIFICATION, OPEN, VERSION,
};

// The octets of the parameter with an AS number of four octets.
const AS_PARAMETER: u8 = 8;

// Replaces the content by the header of a message whose body has `size` octets.
fn begin(out: &mut Buf, kind: u8, size: u16)
    requires room { MAX_MESSAGE ≤ out.old.capacity }
    requires short { size ≤ MAX_BODY }
    ensures { Replaces out.old out.new (header kind size) }
{
    out.clear();
    out.append(&[255; MARKER]);
    out.append(&(HEADER as u16 + size).to_be_bytes());
    out.append(&[kind]);
}

// Replaces the content by an OPEN up to its parameters, which have `size` octets.
fn begin_open(out: &mut Buf, asn: u16, hold: u16, id: u32, size: u8)
    requires { MAX_MESSAGE ≤ out.old.capacity }
    ensures { Replaces out.old out.new (open_front asn hold id size) }
{
    begin(out, OPEN, (LEAST_OPEN - HEADER) as u16 + u16::from(size));
    out.append(&[VERSION]);
    out.append(&asn.to_be_bytes());
    out.append(&hold.to_be_bytes());
    out.append(&id.to_be_bytes());
    out.append(&[size]);
}

/// Replaces the content of `out` by an OPEN without parameters (RFC 4271, section 4.2). The hold time is in seconds;
/// the first octet of the identifier is the high one of `id`.
pub fn write_open(out: &mut Buf, asn: u32, hold: u16, id: u32)
    requires room { MAX_MESSAGE ≤ out.old.capacity }
    requires asn { asn < 2 ^ 16 }
    ensures written { Replaces out.old out.new (open_message asn hold id) }
    ensures message { IsMessage out.new.octets }
{
    begin_open(out, asn as u16, hold, id, 0);
}

// What the AS field of an OPEN has.
fn as_field(asn: u32) -> u16
    ensures { result ≡ as_field asn }
{
    u16::try_from(asn).unwrap_or(AS_TRANS as u16)
}

/// Replaces the content of `out` by an OPEN whose one parameter is the capability of an AS number of four octets (RFC
/// 6793, section 3). The hold time is in seconds; the first octet of the identifier is the high one of `id`.
pub fn write_open4(out: &mut Buf, asn: u32, hold: u16, id: u32)
    requires { MAX_MESSAGE ≤ out.old.capacity }
    ensures written { Replaces out.old out.new (wide_open_message asn hold id) }
    ensures message { IsMessage out.new.octets }
{
    begin_open(out, as_field(asn), hold, id, AS_PARAMETER);
    out.append(&[CAPABILITIES, 6, FOUR_OCTET_AS, 4]);
    out.append(&asn.to_be_bytes());
}

/// Replaces the content of `out` by a KEEPALIVE (RFC 4271, section 4.4).
pub fn write_keepalive(out: &mut Buf)
    requires { MAX_MESSAGE ≤ out.old.capacity }
    ensures written { Replaces out.old out.new keepalive_message }
    ensures message { IsMessage out.new.octets }
{
    begin(out, KEEPALIVE, 0);
}

/// Replaces the content of `out` by a NOTIFICATION with the data `extra` (RFC 4271, section 4.5).
pub fn write_notice(out: &mut Buf, code: u8, subcode: u8, extra: &[u8])
    requires room { MAX_MESSAGE ≤ out.old.capacity }
    requires extra { length extra.now ≤ MAX_NOTICE_DATA }
    ensures written { Replaces out.old out.new (notice_message code subcode extra.now) }
    ensures message { IsMessage out.new.octets }
{
    begin(
        out,
        NOTIFICATION,
        (LEAST_NOTIFICATION - HEADER + extra.len()) as u16,
    );
    out.append(&[code, subcode]);
    out.append(extra);
}

/// What a NOTIFICATION says: a code, a subcode and data, of which a message has room for `numbers::MAX_NOTICE_DATA`
/// octets (RFC 4271, section 4.5).
#[derive(Clone, Copy, Debug, PartialEq, Eq)]
pub struct Notice<'a> {
    pub code: u8,
    pub subcode: u8,
    pub extra: &'a [u8],
}

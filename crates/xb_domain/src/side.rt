/// A party of a route: the speaker, or a peer.
///
/// The speaker has number 0 and kind 0. Peers are numbered from 1 in the configuration's order; kind 1 is external,
/// which is a peer whose AS differs from the speaker's, and kind 2 internal. `address` is an IPv4 address whose first
/// octet is the high one, and `id` the BGP identifier (RFC 4271, section 4.2), read in the same way.
#[derive(Clone, Copy, Debug, PartialEq, Eq)]
pub struct Side {
    pub number: u32,
    pub asn: u32,
    pub address: u32,
    pub id: u32,
    pub kind: u8,
}

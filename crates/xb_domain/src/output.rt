/// What the speaker gives. The number is the peer's, from 1.
#[derive(Clone, Copy, Debug, PartialEq, Eq)]
pub enum Output<'a> {
    /// The session came up.
    Up(u32),
    /// The session went down.
    Down(u32),
    /// Octets left for the peer.
    Sent(u32, &'a [u8]),
}

/// How a speaker packs what it advertises into messages.
#[derive(Clone, Copy, Debug, PartialEq, Eq)]
pub enum Packing {
    /// All pending prefixes of one section together.
    Grouped,
    /// Pending prefixes in order, as long as their section is the same.
    Sorted,
}

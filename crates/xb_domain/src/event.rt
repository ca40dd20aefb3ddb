/// One thing that one actor does: the operator, a peer's transport, or the clock. The first number is the peer's, from
/// 1, except in `Time`.
#[derive(Clone, Copy, Debug)]
pub enum Event<'a> {
    /// The operator starts the session.
    Start(u32),
    /// The operator stops the session.
    Stop(u32),
    /// The transport came up.
    Up(u32),
    /// The transport was lost.
    Down(u32),
    /// Octets came from the peer.
    Octets(u32, &'a [u8]),
    /// The clock has this many seconds.
    Time(u32),
    /// The transport takes this many octets, the second number.
    Room(u32, u32),
    /// The transport takes all that is pending.
    Drain(u32),
    /// Every prefix is decided and exported again.
    Rescan,
}

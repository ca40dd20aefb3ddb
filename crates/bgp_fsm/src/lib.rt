//! The session machine of one peer (RFC 4271, sections 8 and 10, simplified: no Active state, no ConnectRetry timer,
//! and fixed first values of the timers).
//!
//! A [`Stimulus`] comes in with the time, in seconds: an order of the operator, a change of the transport, a message
//! that was judged already, or a timer that is due. [`Session::on`] gives the next state and its timers, and returns
//! the [`Act`]s that the caller has to do, in their order: messages to send, routes to announce or to forget, the
//! transport to close. [`Session::due`] says which timer is due first.
//!
//! The table of rows is `specs/Sessions`, by state and then by stimulus. `Session::on` is a `match` with an arm for
//! each row; the rows that OpenSent, OpenConfirm and Established share are in a second `match`. A session in which the
//! hold time is 0 has no timers once the peer's OPEN was accepted (section 4.2).
//!
//! Nothing here reads a clock, reads or writes octets, or knows routes.
#![tactic(auto)]

mod reaction;
mod session;

pub use reaction::{MAX_ACTS, Reaction};
pub use session::{OPEN_WAIT, Session};

/// What a session has come to (RFC 4271, section 8.2.2).
#[derive(Clone, Copy, Debug, PartialEq, Eq)]
pub enum State {
    Idle,
    Connect,
    OpenSent,
    OpenConfirm,
    Established,
}

/// What happens to a session (RFC 4271, section 8.1).
#[derive(Clone, Copy, Debug, PartialEq, Eq)]
pub enum Stimulus {
    /// The operator starts the session.
    Start,
    /// The operator stops it.
    Stop,
    /// The transport came up.
    LinkUp,
    /// The transport was lost.
    LinkDown,
    /// An OPEN that was accepted, with its hold time in seconds, the peer's identifier, and whether AS numbers have
    /// four octets in the session (RFC 6793, section 3).
    OpenGood { hold: u16, id: u32, wide: bool },
    /// An OPEN in another state than OpenSent.
    OpenLate,
    Keepalive,
    Update,
    /// A NOTIFICATION came.
    Notified,
    /// A message was refused, with the code and subcode of RFC 4271, section 6.
    Fault { code: u8, subcode: u8 },
    HoldDue,
    KeepaliveDue,
}

/// What a session does.
#[derive(Clone, Copy, Debug, PartialEq, Eq)]
pub enum Act {
    SendOpen,
    SendKeepalive,
    /// A NOTIFICATION is sent; the caller adds its data.
    SendNotice { code: u8, subcode: u8 },
    /// The session came up: routes may be sent.
    Up,
    /// The session was up and no longer is: the peer's routes are forgotten.
    Down,
    /// The transport is closed, and input that waits is dropped.
    Close,
}

/// A timer of a session.
#[derive(Clone, Copy, Debug, PartialEq, Eq)]
pub enum Timer {
    Hold,
    Keepalive,
}

//! A host over any half that keeps routes: the sessions of all peers, their timers, and what waits to be read or sent.
//!
//! [`Sessions`] meets `Host` of spk_model for each half that meets [`Routes`]. An event goes to the session of a peer,
//! or to the clock: the session machine of bgp_fsm says what to do, and its acts are messages (bgp_write), the end of
//! the transport, and routes that are exported or lost. Octets go into the buffer of their peer (bgp_frame), and each
//! whole message at its front is judged (bgp_open, bgp_check) and taken. When a transport has room, what is left of a
//! message leaves, and then the next messages that the routes' half forms.
//!
//! Buffers are kept apart from everything else, since the body of a message is lent from its buffer while it is taken.
//! When a session is closed, a flag is set, and its octets are dropped after the message or after the event. Contracts
//! see both halves as one speaker, by the octets in the buffers (`specs/Meaning`), and say of each function which step
//! of the definition it does (`Does`). Which routes there are is not known here.
#![tactic(auto)]

mod clock;
mod host;
mod links;
mod messages;
mod react;
mod routes;
mod start;
mod tell;
mod wire;

pub use host::Sessions;
pub use routes::Routes;

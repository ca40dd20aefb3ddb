//! BGP messages on the wire: what a message header is, and how a stream is split into messages (RFC 4271, sections 4.1
//! and 6.1).
//!
//! Messages come as a list of octets. [`fault_in_header`] returns what is wrong with the header at its front, if
//! anything is, and a [`Notice`] is what a NOTIFICATION says. The definition `split` cuts a stream into whole messages
//! and a rest; by the law [`laws::one_split`] a stream has exactly one such split, and by [`laws::message_bounds`] a
//! whole message has the length that its type allows.
//!
//! The numbers of the protocol have their names in [`numbers`]. Reading a stream in pieces is in bgp_frame; the bodies
//! of messages are read and written by bgp_update, bgp_open and bgp_write.
#![tactic(auto)]

mod front;
mod header;
pub mod laws;
mod notice;
pub mod numbers;

pub use front::{Next, front_of};
pub use header::{HeaderFault, fault_in_header};
pub use notice::Notice;

//! Events that are made from a number: a large input for a speaker, without a file.
//!
//! A number and a count come in, and the events of [`Work`] go out one by one, for the speaker and the four peers of
//! [`Config::for_work`](xbgp_config::Config::for_work). First each peer's session comes up, with an OPEN that has no
//! capabilities, so that AS numbers have two octets in its messages. Then come `count` updates, each an UPDATE of one
//! prefix from one peer, which announces the prefix or withdraws it. After every hundredth update, and after the last,
//! all peers are drained in order.
//!
//! Whatever is drawn comes from one sequence of numbers, so the same number and count always give the same events.
//! `specs/Draws` says what a draw is and `specs/Work` which events there are; `specs/Views` is for the private state
//! of a walk: a [`Work`] keeps what comes next, the last number that was drawn and how many updates are left. The
//! octets of an event are written into a buffer of the caller, so no memory is taken.
//!
//! What a speaker does with the events is not here.
#![tactic(auto)]

mod generator;
mod route;
mod step;
mod update;
mod work;

pub use work::{Work, next_into};

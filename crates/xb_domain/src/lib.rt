//! The words of the speaker that the crates above share.
//!
//! An [`Event`] comes in: what one actor did, the operator, a peer's transport or the clock. An [`Output`] goes out: a
//! session came up or went down, or octets left for a peer; a speaker appends its outputs to an [`Outputs`], in order.
//! A [`Side`] is a party of a route, the speaker itself or a peer. Programs run at five points of the speaker
//! ([`Point`]), and [`helper_allowed`] is the table of the helpers that they may call there. [`Packing`] names the two
//! ways to pack prefixes into messages.
//!
//! [`BadKind`] and [`Part`] name what is wrong in a configuration or a manifest, and where. What is done with all of
//! these is not here.
#![tactic(auto)]

mod bad;
mod event;
mod kept;
mod output;
mod outputs;
mod point;
mod side;

pub use bad::{BadKind, Part};
pub use event::Event;
pub use output::{Output, Packing};
pub use outputs::Outputs;
pub use point::{Point, helper_allowed};
pub use side::Side;

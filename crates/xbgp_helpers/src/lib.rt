//! The helpers that programs call, and the worlds that they are called in.
//!
//! A program runs at one of the five points of the speaker ([`Point`](xb_domain::Point)). What it sees there and may
//! edit is its world: the routes, the parties, the prefix, the clock, the maps, the write buffer, and how much of the
//! heap it has taken. There is a world type for each point: [`ReceiveWorld`], [`InboundWorld`], [`DecisionWorld`],
//! [`OutboundWorld`] and [`EncodeWorld`]. Each borrows its parts, for writing only what programs may change at that
//! point, and implements [`Helpers`](bpf_machine::Helpers), so that [`run`](bpf_machine::run) runs a program over it.
//! One is made for each program run, so a run begins with no heap taken. When it is over, the caller has its parts back
//! as the program left them.
//!
//! A helper has a number ([`numbers`]) and at most four arguments. Each is one function over the parts that it needs,
//! in the modules `attributes`, `facts`, `maps` and `buffers`; a world's `call` has an arm for each number that
//! `helper_allowed` of xb_domain allows at its point. A helper is misused if it names a route, a code, a field or a map
//! that isn't there, or a range that isn't in memory; this is judged before any other answer.
//!
//! In specs/, `Helping` has the table: what each helper is, and `help`, the result of a call by number. `Worlds` has
//! the world as plain data, and `Shows` what each of the five types shows of what it borrows.
#![tactic(auto)]

mod attributes;
mod buffers;
mod decision;
mod encode;
mod facts;
mod inbound;
pub mod laws;
mod maps;
pub mod numbers;
mod outbound;
mod ranges;
mod receive;

pub use decision::DecisionWorld;
pub use encode::EncodeWorld;
pub use inbound::InboundWorld;
pub use outbound::OutboundWorld;
pub use receive::ReceiveWorld;

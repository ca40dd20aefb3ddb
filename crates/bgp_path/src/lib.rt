//! AS paths (RFC 4271, sections 4.3, 5.1.2 and 9.1.2), read in place.
//!
//! The value of an AS_PATH comes in as a slice. [`Segments::new`] accepts it if segments fill it, and the walk then
//! returns the segments one after another, each with its AS numbers as octets of the value. However far the walk has
//! come, the other calls are about the whole path: its length, whether an AS number is in it, its leftmost AS number,
//! and the path with one AS number prepended, which is written into a slice of the caller. No memory is taken.
//!
//! [`Segments::wide`] is the same walk over AS numbers of four octets (RFC 6793). [`widen_into`] and [`narrow_into`]
//! write a path in the other width, and [`merge_into`] joins an AS_PATH of two octets a number with the AS4_PATH that
//! came with it: what the first has before the hops of the second is widened and written before it. What does not fit
//! is known before anything is written.
//!
//! What a path is, is defined in bgp_attr's `specs/Paths`. Here `specs/Parts` has what the walk returns, `specs/Widths`
//! paths in two widths, and `specs/Fronts` what it is to write a text to the front of a slice. The octets of an AS
//! number are an argument in definitions and lemmas, and in the functions a `bool`: whether they are four.
#![tactic(auto)]

pub mod laws;
mod numbers;
mod segments;
mod widths;

pub use segments::{Segment, Segments};
pub use widths::{merge_into, narrow_into, widen_into};

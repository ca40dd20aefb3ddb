//! Messages from a stream that comes in pieces (RFC 4271, sections 4.1 and 6.1).
//!
//! Pieces of any length go in by [`Frames::feed`], as far as there is room: at most [`MAX_WAITING`] octets wait.
//! [`Frames::next`] removes the first message, if a whole one waits, and [`Frames::body`] lends its body until the
//! next call. A header is judged as soon as its 19 octets are there, before the body came. After a refused header
//! every `next` reports the same fault, until [`Frames::clear`].
//!
//! All octets are in one buffer that never grows. The last body and what waits follow each other in it, and they are
//! moved to its beginning only when a piece would pass its end, so that each octet is moved at most once on average.
//!
//! A contract sees two lists, the octets that wait and the last body. `xb_wire` has the definition of a stream's split
//! into messages and a rest; [`laws::any_cut`] says that pieces give the split of the stream, however it was cut. What
//! a body means is not known here.
#![tactic(auto)]

mod frames;
pub mod laws;

pub use frames::{Frames, MAX_WAITING};
pub use xb_wire::{HeaderFault, Next};

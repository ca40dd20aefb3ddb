//! Where inputs are read and text is written: shelves, sinks and pages.
//!
//! A [`Shelf`] has octets under names and a [`Sink`] takes text. Each counts its faults, so that a contract can say
//! that a failure has its cause. A shelf that *tells* shows contracts what it holds, and a sink that tells shows what
//! it took: [`MemShelf`] and [`MemSink`] do, while [`FileShelf`] and [`StdSink`], the real files and standard output,
//! do not, since no contract can say what a file holds.
//!
//! A text of many lines goes to a sink by a page: each line is written in a buffer of its own ([`begin_line`]), then
//! appended to the page by [`gather`], which writes the page to the sink when it is full, and what is left on the page
//! is written at the end by [`put_text`]. Each of these says by [`Halt`] why it ended early. The texts themselves are
//! not here.
#![tactic(auto)]

mod memory;
mod page;
mod real;
mod shelf;

pub use memory::{MemShelf, MemSink};
pub use page::{Halt, begin_line, gather, put_text};
pub use real::{FileShelf, StdSink};
pub use shelf::{Failed, Shelf, Sink};

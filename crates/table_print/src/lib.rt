//! The words and lines in which reports are printed.
//!
//! Crates that print a report share what is here, so that each word and each line has one home: the words for why a
//! program failed and where it ran, and the lines of a replay's report, which are words with one space between
//! neighbours. A call that writes a line appends it to a buffer of the caller if it fits, and otherwise leaves the
//! buffer unchanged; none takes memory. Nothing here knows of sinks or pages.
//!
//! `specs/Words` and `specs/Lines` have the texts.
#![tactic(auto)]

mod line;
mod word;

pub use line::{adv_line, drained_line, fault_line, map_line, output_line, route_line};
pub use word::{cause_word, point_word};

//! The event log of a replay: what a line says, and the lines of a log.
//!
//! A log is text. Each of its lines is one event, or nothing: `specs/Lines` has the grammar, which `parse_line` reads.
//! A line names a peer by its number, which is judged by how many peers are configured, and a `time` line may not set
//! the clock back; so `parse_line` takes both. The octets of an `in` line go into a buffer of the caller, which the
//! event borrows.
//!
//! `LogReader` reads the named log from a shelf by blocks, and gives it line by line, in memory that it takes once.
//! `specs/Logs` has a log as its events and how it ends: at its end, at the first line that is refused, or at its
//! limit. `specs/Readings` has what comes at an offset of it, and `laws::line_by_line` says that these lines, parsed in
//! turn, are the log. To play the events, and to count lines for a fault, is left to the caller.
#![tactic(auto)]

mod ahead;
mod hex;
pub mod laws;
mod limits;
mod line;
mod part;
mod reader;

pub use limits::{LINE_LIMIT, LOG_LIMIT, OCTETS_LIMIT};
pub use line::{Line, parse_into, parse_line};
pub use reader::{Got, LogReader};

//! The one call that does all that the program `xbgp` does: `run`.
//!
//! Words and files come in by a list of words and a shelf; text goes out to a sink, and the status is returned. `run`
//! finds the command, and each command has a module: `check`, `exec` and `work` make their whole text and leave it to
//! be written once, `hear`, `judge`, `replay` and `both` write theirs by pages. An input is read whole before it is
//! judged, and what may be refused is refused before any text is written; only a log is read line by line, as it is
//! replayed. So a step over the shelf gives a value or the status that ends the command, and a step over the sink writes
//! a text or the line of that status; [`spk_model::replay`] is both.
//!
//! `specs/Answers` says what the program answers to its words, from the files that are held: a status and a text. `run`
//! gives that answer over any shelf and any sink, and each other answer only with its cause. What the files hold is
//! judged by the crates below, and the words of a program's failure are `table_print`'s.
#![tactic(auto)]

mod both;
mod check;
mod command;
mod entry;
mod exec;
mod hear;
mod input;
mod judge;
mod output;
mod replay;
mod status;
mod word;
mod work;

pub use entry::run;
pub use status::{File, Status};

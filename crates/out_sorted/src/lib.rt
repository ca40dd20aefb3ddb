//! What is advertised to a peer and what it was told, and the UPDATEs that tell it what has changed (RFC 4271, sections
//! 3.2 and 4.3), packed in runs of neighbouring prefixes.
//!
//! A [`SortedOut`] takes a section of path attributes for a prefix, or takes a prefix back. What the peer was told and
//! what is advertised then differ at some prefixes, and [`SortedOut::next_message`] writes the next UPDATE: withdrawals
//! as long as there are any, and otherwise the next prefixes of one section, in order. `bgp_write` has the definition
//! of that message, and its `Packer` writes it.
//!
//! The table is one ordered map whose entries each hold a section, or two if the peer was told another one than is
//! advertised. A message therefore moves sections and takes no memory. Beside the map, one set has the prefixes that
//! wait to be withdrawn and another those that wait to be announced, so that a message looks at what waits alone. If
//! there was no memory for a prefix in its set, the table is searched instead, from the first prefix that may wait.
//!
//! Which routes are advertised is not decided here, and what was written is the caller's to send. A session that comes
//! up begins with a new table.
#![tactic(auto)]

mod entries;
mod entry;
mod table;
mod waiting;

pub use table::SortedOut;

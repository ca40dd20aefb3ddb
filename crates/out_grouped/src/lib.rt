//! What is advertised to a peer and what it was told, and the UPDATEs that tell it what has changed (RFC 4271, sections
//! 3.2 and 4.3), packed by section of path attributes.
//!
//! A [`GroupedOut`] takes a section of path attributes for a prefix, or takes a prefix back. What the peer was told and
//! what is advertised then differ at some prefixes, and [`GroupedOut::next_message`] writes the next UPDATE:
//! withdrawals as long as there are any, and otherwise all prefixes that wait with the section of the first one,
//! wherever they stand. `bgp_write` has the definition of that message, and its `Packer` writes it.
//!
//! The table is one ordered map whose entries each hold a section, or two if the peer was told another one than is
//! advertised. Beside it are the set of the prefixes that wait to be withdrawn, the set of those that wait to be
//! announced, and the latter once more as one set for each section (in a map of `section_map`). So a message visits
//! only the prefixes that it has, and takes no memory. If there is no memory for a prefix in one of the first two sets,
//! that set is given up for a search through the map, until nothing is found there any more; so a prefix can be taken
//! back without memory.
//!
//! Which routes are advertised is not decided here, and what was written is the caller's to send. A session that comes
//! up begins with a new table.
#![tactic(auto)]

mod changes;
mod entries;
mod entry;
mod groups;
mod packing;
mod table;
mod waiting;

pub use table::GroupedOut;

//! Path attributes of an UPDATE (RFC 4271, sections 4.3, 5 and 6.3), read in place.
//!
//! A section comes in as a slice. [`Attrs`] walks over it and returns each attribute as parts of that slice, with the
//! offset at which it begins; it ends at the section's end, or at the first attribute that runs past it. What a known
//! attribute must be is one table with a row for each code, which [`attr_rule`] applies to a single attribute: first
//! its flags, then its length, then its value. [`path_ok`] judges the value of an AS_PATH, whose segments bgp_path
//! reads. [`attr_rule4`] and [`path_ok4`] do the same with AS numbers of four octets. Nothing is copied and no memory
//! is taken.
//!
//! Whether a section as a whole is valid, with no code twice and none missing, is bgp_check's; routes that can be
//! edited are xbgp_view's. The words of both are defined here: `specs/Attributes` has the grammar of a section,
//! `specs/Walks` the walk, `specs/Paths` the segments of an AS_PATH, `specs/Rules` the table, and `specs/Routes` the
//! neutral route with its canonical section. Definitions take the octets of an AS number as an argument when they
//! depend on it.
#![tactic(auto)]

mod attrs;
pub mod codes;
pub mod flags;
pub mod laws;
mod path;
mod rule;
pub mod segments;

pub use attrs::{Attr, Attrs, Overrun};
pub use path::{path_ok, path_ok4};
pub use rule::{AttrFault, attr_rule, attr_rule4, is_host};

/// The most octets of a route's canonical section: 4,096, which edits may reach, and 16 for what an export adds.
pub const MAX_CANONICAL: usize = 4112;

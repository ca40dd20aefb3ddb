//! The judgement of an UPDATE (RFC 4271, section 6.3): its first fault, with the data that a NOTIFICATION carries.
//!
//! The body of an UPDATE comes in, without its header. [`check_update`] returns its parts if it has no fault, and
//! otherwise the [`Notice`](xb_wire::Notice) of the first. The order of the checks is this project's own, and so is the
//! check of withdrawn prefixes: the two lengths fit the body, withdrawn prefixes are valid, then the section of path
//! attributes, then the announced prefixes. [`check_section`] is the part on the section alone: no attribute runs past
//! it and no code is there twice, then each attribute by the table of bgp_attr, then, if prefixes are announced, the
//! mandatory codes. [`check_update4`] and [`check_section4`] are the same judgement with AS numbers of four octets (RFC
//! 6793): the table of bgp_attr has the one difference.
//!
//! `specs/Judgement` defines each check as a search over whole lists. The code walks over the section twice: for an
//! overrun or a code that is there twice, then for the faults of single attributes. The data of a notice is a part of
//! the input, except for a missing attribute: there it is the code. Nothing is copied and no memory is taken.
#![tactic(auto)]

mod codes;
mod notices;
mod section;
mod update;

pub use section::{check_section, check_section4};
pub use update::{check_update, check_update4};

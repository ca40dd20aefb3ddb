//! Views of BGP messages: the messages of a stream, the parts of an UPDATE, and its prefixes (RFC 4271, sections 4.1
//! and 4.3).
//!
//! Octets come in as slices. [`Messages`] walks over the messages of a stream, [`UpdateView`] finds the parts of an
//! UPDATE's body, and [`Prefixes`] walks over the prefixes of such a part. What goes out are slices of the same
//! octets: nothing is copied and no memory is taken. Only the form is read: path attributes are not looked at, and no
//! fault gets a NOTIFICATION's code.
//!
//! Contracts see a walker as the list of its steps that are still to come, so a caller knows nothing of offsets. The
//! last step is an error if octets are left that are no item, and nothing comes after it. [`laws`] says that the steps
//! are the items of the definitions. `specs/Heard` has the definition of the table that a stream announces.
#![tactic(auto)]

pub mod laws;
mod messages;
mod prefixes;
mod update;

pub use messages::{Messages, Msg};
pub use prefixes::{BadPrefix, Prefixes};
pub use update::UpdateView;

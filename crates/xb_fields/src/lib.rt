//! Readers of the fields of TOML documents, which configuration and manifest share.
//!
//! A text becomes a table by `read_document`; the other calls take a value from a table, by its key. Each gives the
//! value, or the first fault that it meets: a kind, a part of the document and the position of an entry. The caller
//! says the part and the position, so that a call knows nothing of the document around it.
//!
//! A call's contract is an equation with the step of the same name in `specs/Fields`, so that a chain of calls with
//! `?` is the chain of steps of a definition. A call that takes memory may also return want of memory: `Gives` in
//! `specs/Outcomes` says this. Which keys a document has, and what they mean, is said by the crates above.
#![tactic(auto)]

mod document;
mod fault;
mod field;
mod value;

pub use document::read_document;
pub use fault::{FieldError, FieldFault, Location};
pub use field::{
    keys_listed, optional_list, optional_number, required, required_number, required_text, value_at,
};
pub use value::{list_of, number, table_with, text};

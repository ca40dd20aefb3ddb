//! Values and their texts: IPv4 prefixes, buffers of a fixed capacity, and the texts of numbers, addresses, prefixes
//! and octets, read and written.
//!
//! A [`Prefix`] keeps its host bits clear, so that two prefixes are equal exactly if they name the same addresses. A
//! [`Buf`] takes all its memory when it is made: `push` and the calls `push_*` append a text if it fits and otherwise
//! change nothing, and the calls `append*` have the condition that it fits and always append. The readers `read_*`
//! return the value of a text, or None if the text is not of the form. [`Steps`] counts the steps of a search.
//!
//! Octets of messages and files are not here: see xb_wire and xb_io.
#![tactic(auto)]

mod buf;
mod prefix;
mod reader;
mod steps;
mod text;

pub use buf::Buf;
pub use prefix::Prefix;
pub use reader::{read_decimal, read_dotted, read_prefix, split_once};
pub use steps::{Brand, Steps};
pub use text::{
    MAX_DECIMAL, MAX_PREFIX_TEXT, append_decimal, append_hex, append_prefix, push_decimal,
    push_dotted, push_hex, push_prefix,
};

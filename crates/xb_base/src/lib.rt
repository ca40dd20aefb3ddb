//! The words that all crates share, under one name.
//!
//! This crate has nothing of its own. It hands on xb_values (prefixes, buffers, texts), xb_wire (message headers and
//! streams), xb_io (shelves, sinks, pages) and xb_domain (events, points, kinds of faults). Each crate of the product
//! names the part that it uses, so that a change of one part proves again only what uses that part; a program above
//! may use this one name.
#![tactic(auto)]

pub use xb_domain::{BadKind, Event, Output, Outputs, Packing, Part, Point, Side, helper_allowed};
pub use xb_io::{
    Failed, FileShelf, Halt, MemShelf, MemSink, Shelf, Sink, StdSink, begin_line, gather, put_text,
};
pub use xb_values::{
    Brand, Buf, MAX_DECIMAL, MAX_PREFIX_TEXT, Prefix, Steps, append_decimal, append_hex,
    append_prefix, push_decimal, push_dotted, push_hex, push_prefix, read_decimal, read_dotted,
    read_prefix, split_once,
};
pub use xb_wire::{HeaderFault, Next, Notice, fault_in_header, front_of, laws, numbers};

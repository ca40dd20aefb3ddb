//! The routes that a peer sent, each kept as a list of attributes.
//!
//! A route comes in as any [`RouteView`](xbgp_view::RouteView), and a [`PeerTable`] keeps a copy of it by prefix, in an
//! ordered map. The copy is an [`AttrList`]: a list of nodes by rising code, each with the flags, the code and the
//! octets of one attribute's value, as they were received; nothing of a value is read. A value of up to 22 octets
//! stands in the list itself, so that most routes take one block of memory. It is a view again, so whatever takes a
//! route takes one from the table.
//!
//! Contracts see an `AttrList` as the neutral route of bgp_attr, and a table as a finite map from prefixes to routes,
//! `Routes` of xbgp_view. Where routes come from and which of them is best is not here.
#![tactic(auto)]

mod attrs;
mod node;
mod table;
mod value;

pub use attrs::AttrList;
pub use table::PeerTable;

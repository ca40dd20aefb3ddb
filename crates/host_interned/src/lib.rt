//! The host that keeps routes as shared records of attributes.
//!
//! [`Interned`] meets `Host` of spk_model. Its sessions, timers and octets that wait are kept by spk_session, over the
//! half that keeps routes, which is here: `InternedRoutes` meets spk_session's `Routes`. The attributes of all routes,
//! best ones and those that peers sent, are records in one pool (attr_intern), which routes of equal meaning share. The
//! best routes are a prefix tree (rib_tree) of ids of records, each with the number of its source, and for each peer
//! there is a tree of ids of what it sent. What a peer is advertised and was told is kept by section (out_grouped), so
//! that an UPDATE announces all prefixes that wait with one section.
//!
//! `Rib` has the pool, the trees and what is told. Each id in a tree is one owner of its record: a route that comes in
//! is interned before its id is written, a best route shares the record of the route that was chosen, and an id that
//! is overwritten or removed is released. `Rib` shows contracts the routes that the ids mean (`specs/Ribs`), and keeps
//! that each record has at least as many owners as there are places that hold its id, so that all of them live. A
//! look-up reads a bounded number of nodes.
//!
//! `Core` puts chains of programs to it, and its functions follow the definitions of spk_model's `Routing` one by one,
//! as those of host_listed do: the contract of each says which step of the definition it does (`Does` in
//! `specs/Meaning`), for any chains that ran before, and after want of memory the core may be used again (`Goes`).
#![tactic(auto)]

mod chosen;
mod decision;
mod holding;
mod interned;
mod peer;
mod reading;
mod rescan;
mod rib;
mod routing;
mod start;
mod tables;
mod update;

pub use chosen::Chosen;
pub use interned::Interned;

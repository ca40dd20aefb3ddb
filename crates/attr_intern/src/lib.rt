//! Attribute records that many prefixes and peers share.
//!
//! A route comes in as any [`RouteView`](xbgp_view::RouteView), and a [`Pool`] gives an id for what it means: routes of
//! equal meaning have one id and one [`Record`] for as long as the record lives. Each call of
//! [`intern`](Pool::intern) or [`share`](Pool::share) makes one more owner of the id, and each
//! [`release`](Pool::release) one fewer; with its last owner a record is gone. The count of owners stays at 2^64 - 1
//! once it is there, and then the record is never given up.
//!
//! Records are in a slab, under the key that is their id. A route is looked up by its canonical section, which is
//! written to a buffer of the pool, in a map from sections to ids (`section_map`); an id that is found takes no memory.
//! A record keeps its canonical section in one piece, and where each attribute is in it.
//!
//! Contracts see a pool as a finite map from ids to routes and counts of owners (`specs/Pools`). Who owns what is not
//! here.
#![tactic(auto)]

mod id;
mod pool;
mod record;

pub use id::RecordId;
pub use pool::Pool;
pub use record::Record;

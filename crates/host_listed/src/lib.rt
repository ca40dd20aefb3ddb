//! The host that keeps routes as lists of attributes.
//!
//! [`Listed`] meets `Host` of spk_model. Its sessions, timers and octets that wait are kept by spk_session, over the
//! half that keeps routes, which is here: `ListedRoutes` meets spk_session's `Routes`. For each peer there is a table of
//! the routes that it sent (rib_table), which [`Listed::table`] hands out, and one of what it is advertised and was told
//! (out_sorted). The best routes are in an ordered map, each as a copy of its list, with the number of its source.
//!
//! To decide a prefix, its candidates are borrowed from the tables and compared (spk_model), so the cost is that of the
//! candidates; exporting it costs the peers. An UPDATE is read into an overlay once, passes inbound for each announced
//! prefix, and the prefixes that it names are then settled by rising order. All overlays and buffers are made at the
//! start.
//!
//! `Core` has all of this, and its functions follow the definitions of spk_model's `Routing` one by one: the contract
//! of each says which step of the definition it does (`Does` in `specs/Meaning`), for any chains that ran before, and
//! after want of memory the core may be used again (`Goes`). Routes in tables have no fault, have the mandatory
//! attributes and are short (`IsSound` of spk_routes), which the types `PeerTables` and `Best` keep.
#![tactic(auto)]

mod best;
mod decision;
mod listed;
mod reading;
mod rescan;
mod routing;
mod start;
mod tables;
mod update;

pub use listed::Listed;

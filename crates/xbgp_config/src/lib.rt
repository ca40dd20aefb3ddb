//! The configuration of a speaker: itself, its peers, the networks that it originates and the interior costs of next
//! hops.
//!
//! A text of TOML comes in; `read_config` gives the configuration that it says, or the first of its faults.
//! `specs/Configs` is the table of keys, with their ranges and defaults, in the order in which faults are looked for:
//! the keys of the whole text, then the speaker with its networks, then peers, then costs. It also says what every
//! accepted configuration keeps, as that peers have addresses that differ; this is an invariant of `Config`, so that
//! whoever has one knows it.
//!
//! A module reads one table or list: `speaker`, `networks`, `peers`, `costs`; `texts` reads addresses, `lists` has
//! what is read. [`Config::for_work`] is the one configuration that no text gives: generated events are played on it,
//! and `specs/WorkConfig` says what it is. A configuration does not change after it was read, and nothing here says
//! what a speaker does with it.
#![tactic(auto)]

mod config;
mod costs;
mod for_work;
mod limits;
mod lists;
mod networks;
mod peers;
mod speaker;
mod texts;

pub use config::{Config, read_config};
pub use for_work::{WORK_AS, WORK_PEERS, is_work_internal, work_peer};
pub use limits::{
    DEFAULT_HOLD, DEFAULT_LOCAL_PREF, MAX_AS, MAX_COSTS, MAX_HOLD, MAX_NETWORKS, MAX_PEERS,
    MIN_HOLD,
};
pub use lists::{CostEntry, Costs, Networks, PeerEntry, Peers};
pub use xb_fields::{FieldError as ConfigError, FieldFault as ConfigFault};

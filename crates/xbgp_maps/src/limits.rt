//! The limits of maps, each with its name (this project's own).

/// The most maps.
pub const MAX_MAPS: u32 = 16;

/// The most octets of a key.
pub const MAX_KEY: u32 = 64;

/// The most octets of a value.
pub const MAX_VALUE: u32 = 256;

/// The most entries of one map.
pub const MAX_ENTRIES: u32 = 65_536;

/// The most octets of the keys and values of all maps together, if each map has all its entries.
pub const MAX_ROOM: u64 = 67_108_864;

/// The most writes of a run.
pub const BUDGET: usize = 64;

/// The most levels of the tree of one map.
pub const MAX_LEVELS: u32 = 33;

//! The limits and defaults of a configuration.

/// The greatest AS number: AS numbers have four octets (RFC 6793).
pub const MAX_AS: u32 = u32::MAX;

/// The most peers.
pub const MAX_PEERS: u32 = 64;

/// The most networks that the speaker originates.
pub const MAX_NETWORKS: u32 = 1_024;

/// The most interior costs.
pub const MAX_COSTS: u32 = 1_024;

/// The least hold time that is not 0, in seconds (RFC 4271, section 4.2).
pub const MIN_HOLD: u32 = 3;

/// The greatest hold time, in seconds: it has two octets.
pub const MAX_HOLD: u32 = 65_535;

/// The hold time of a speaker that has no key `hold`, in seconds (RFC 4271, section 10, suggests it).
pub const DEFAULT_HOLD: u16 = 90;

/// The degree of preference of a speaker that has no key `local_pref`.
pub const DEFAULT_LOCAL_PREF: u32 = 100;

//! The flags of path attributes (RFC 4271, section 4.3): four bits, alone and as an attribute may have them together.

/// The attribute is optional; without this bit it is well-known.
pub const OPTIONAL: u8 = 0x80;

/// The attribute is transitive.
pub const TRANSITIVE: u8 = 0x40;

/// A speaker on the way did not know the optional transitive attribute.
pub const PARTIAL: u8 = 0x20;

/// The length of the value has two octets, not one.
pub const EXTENDED_LENGTH: u8 = 0x10;

/// The bits that a route keeps: optional, transitive, partial. The others tell nothing of the route.
pub const KEPT: u8 = OPTIONAL | TRANSITIVE | PARTIAL;

/// The kept flags of a well-known attribute.
pub const WELL_KNOWN: u8 = TRANSITIVE;

/// The kept flags of an optional transitive attribute that each speaker on the way knew.
pub const OPTIONAL_TRANSITIVE: u8 = OPTIONAL | TRANSITIVE;

/// The kept flags of an optional transitive attribute that is partial.
pub const PARTIAL_TRANSITIVE: u8 = OPTIONAL | TRANSITIVE | PARTIAL;

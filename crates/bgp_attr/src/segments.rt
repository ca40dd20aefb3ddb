//! The numbers of an AS_PATH's segments (RFC 4271, section 4.3; RFC 6793, section 9).

/// The type of a segment whose AS numbers have no order.
pub const AS_SET: u8 = 1;

/// The type of a segment whose AS numbers are in order, the last to be added first.
pub const AS_SEQUENCE: u8 = 2;

/// The most AS numbers of a segment: its count is one octet.
pub const MAX_NUMBERS: u8 = 255;

/// The AS number that is written in two octets for one that is greater than 65,535: AS_TRANS.
pub const AS_TRANS: u32 = 23456;

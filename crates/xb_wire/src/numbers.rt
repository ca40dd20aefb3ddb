//! The numbers of the wire, each with its name (RFC 4271, sections 4 and 6). Other limits are written in terms of
//! these.

/// Octets of a message header's marker, all of which are 255 (section 4.1).
pub const MARKER: usize = 16;

/// Octets of a message header: the marker, a length field of 2, a type of 1 (section 4.1).
pub const HEADER: usize = 19;

/// The most octets of a message, its header included (section 4.1).
pub const MAX_MESSAGE: usize = 4096;

/// The most octets of a message's body: 4,096 - 19.
pub const MAX_BODY: usize = MAX_MESSAGE - HEADER;

/// The fewest octets of an OPEN: the header and 10 (section 4.2).
pub const LEAST_OPEN: usize = HEADER + 10;

/// Octets of an UPDATE without prefixes and attributes, the fewest that one has: the header and its two length fields
/// (section 4.3).
pub const EMPTY_UPDATE: usize = HEADER + 4;

/// The fewest octets of a NOTIFICATION: the header, the code and the subcode (section 4.5).
pub const LEAST_NOTIFICATION: usize = HEADER + 2;

/// The most octets of a NOTIFICATION's data, which the header, the code and the subcode precede: 4,096 - 21.
pub const MAX_NOTICE_DATA: usize = MAX_MESSAGE - LEAST_NOTIFICATION;

/// The most octets of a section of path attributes in an UPDATE that has room for any one prefix, which takes at most 5
/// octets: 4,096 - 23 - 5.
pub const MAX_SECTION: usize = MAX_MESSAGE - EMPTY_UPDATE - 5;

/// The type of an OPEN (section 4.1).
pub const OPEN: u8 = 1;

/// The type of an UPDATE.
pub const UPDATE: u8 = 2;

/// The type of a NOTIFICATION.
pub const NOTIFICATION: u8 = 3;

/// The type of a KEEPALIVE.
pub const KEEPALIVE: u8 = 4;

/// The error code of an error in a message header (section 4.5).
pub const MESSAGE_HEADER_ERROR: u8 = 1;

/// The error code of an error in an OPEN.
pub const OPEN_MESSAGE_ERROR: u8 = 2;

/// The error code of an error in an UPDATE.
pub const UPDATE_MESSAGE_ERROR: u8 = 3;

/// The error code of a hold timer that expired.
pub const HOLD_TIMER_EXPIRED: u8 = 4;

/// The error code of a message that the state does not expect.
pub const FSM_ERROR: u8 = 5;

/// The error code of a session that is closed without an error of the peer.
pub const CEASE: u8 = 6;

/// The subcode of an error that no subcode names (section 6.2).
pub const UNSPECIFIC: u8 = 0;

/// A subcode of a message header error (section 6.1): the marker.
pub const CONNECTION_NOT_SYNCHRONIZED: u8 = 1;

/// A subcode of a message header error: the length.
pub const BAD_MESSAGE_LENGTH: u8 = 2;

/// A subcode of a message header error: the type.
pub const BAD_MESSAGE_TYPE: u8 = 3;

/// A subcode of an OPEN message error (section 6.2): the version.
pub const UNSUPPORTED_VERSION_NUMBER: u8 = 1;

/// A subcode of an OPEN message error: the AS.
pub const BAD_PEER_AS: u8 = 2;

/// A subcode of an OPEN message error: the identifier.
pub const BAD_BGP_IDENTIFIER: u8 = 3;

/// A subcode of an OPEN message error: an optional parameter.
pub const UNSUPPORTED_OPTIONAL_PARAMETER: u8 = 4;

/// A subcode of an OPEN message error: the hold time.
pub const UNACCEPTABLE_HOLD_TIME: u8 = 6;

/// A subcode of an UPDATE message error (section 6.3): attributes that do not fill the section, or one twice.
pub const MALFORMED_ATTRIBUTE_LIST: u8 = 1;

/// A subcode of an UPDATE message error: a well-known attribute that is not known.
pub const UNRECOGNIZED_WELL_KNOWN_ATTRIBUTE: u8 = 2;

/// A subcode of an UPDATE message error: a mandatory attribute that is missing.
pub const MISSING_WELL_KNOWN_ATTRIBUTE: u8 = 3;

/// A subcode of an UPDATE message error: the flags of an attribute.
pub const ATTRIBUTE_FLAGS_ERROR: u8 = 4;

/// A subcode of an UPDATE message error: the length of an attribute.
pub const ATTRIBUTE_LENGTH_ERROR: u8 = 5;

/// A subcode of an UPDATE message error: the value of ORIGIN.
pub const INVALID_ORIGIN: u8 = 6;

/// A subcode of an UPDATE message error: the value of NEXT_HOP.
pub const INVALID_NEXT_HOP: u8 = 8;

/// A subcode of an UPDATE message error: a prefix.
pub const INVALID_NETWORK_FIELD: u8 = 10;

/// A subcode of an UPDATE message error: the value of AS_PATH.
pub const MALFORMED_AS_PATH: u8 = 11;

/// The version of BGP (section 4.2).
pub const VERSION: u8 = 4;

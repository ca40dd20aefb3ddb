//! The numbers of helpers, of their results and of their limits (this project's own).

/// Ends the program and leaves all to the next one.
pub const NEXT: u32 = 1;

/// Copies an attribute: the route's number, the code, the address and the room there.
pub const GET_ATTR: u32 = 2;

/// Sets an attribute: the code, the flags, the address and the length of the value.
pub const SET_ATTR: u32 = 3;

/// Removes an attribute: the code.
pub const DEL_ATTR: u32 = 4;

/// The least code from a number on: the route's number, and that number.
pub const NEXT_ATTR: u32 = 5;

/// A field of the sender or the receiver: its number.
pub const GET_PEER: u32 = 6;

/// A field of a route's source: the route's number, and the field's.
pub const GET_SOURCE: u32 = 7;

/// The prefix: the address for its octets.
pub const GET_PREFIX: u32 = 8;

/// Copies a value of a map: the map's number, the address of the key and that for the value.
pub const MAP_GET: u32 = 9;

/// Writes a value of a map: the map's number, the address of the key and that of the value.
pub const MAP_PUT: u32 = 10;

/// Removes a key of a map: the map's number, and the address of the key.
pub const MAP_DEL: u32 = 11;

/// Appends to the write buffer: the address and the length.
pub const WRITE_BUF: u32 = 12;

/// Takes octets of the heap: their number.
pub const ALLOC: u32 = 13;

/// The clock, in seconds.
pub const TIME: u32 = 14;

/// The result -1, by which a helper says that something is absent or isn't allowed.
pub const MINUS_1: u64 = u64::MAX;

/// The result -2, by which a helper says that something doesn't fit.
pub const MINUS_2: u64 = u64::MAX - 1;

/// The result -3, by which a helper says that the chain run has made all its map writes.
pub const MINUS_3: u64 = u64::MAX - 2;

/// How many fields a side has for programs: its number, AS, address, identifier and kind, and the speaker's AS, address
/// and identifier.
pub const FIELDS: u64 = 8;

/// Octets of the heap are taken in multiples of this number.
pub const HEAP_UNIT: u64 = 8;

/// The most octets that programs may append to the write buffer.
pub const MAX_BUFFER: usize = 4096;

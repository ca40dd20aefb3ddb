/// The widths of keys and values in octets, and the most entries.
///
/// A key has 1 to [`MAX_KEY`](crate::limits::MAX_KEY) octets, a value 1 to
/// [`MAX_VALUE`](crate::limits::MAX_VALUE), and a map 1 to [`MAX_ENTRIES`](crate::limits::MAX_ENTRIES) entries.
#[derive(Clone, Copy, Debug, PartialEq, Eq)]
pub struct MapShape {
    pub key: u16,
    pub value: u16,
    pub entries: u32,
}

/// What `put` returns.
#[derive(Clone, Copy, Debug, PartialEq, Eq)]
pub enum Put {
    /// The value was written.
    Done,
    /// The key is new, and the map has all its entries. Nothing was written.
    Full,
    /// The run has all its writes. Nothing was written.
    Budget,
}

/// What `remove` returns.
#[derive(Clone, Copy, Debug, PartialEq, Eq)]
pub enum Remove {
    /// The key was removed, with its value.
    Done,
    /// The map has no such key.
    Absent,
    /// The run has all its writes. Nothing was removed.
    Budget,
}

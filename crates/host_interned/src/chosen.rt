// A best route.

use attr_intern::RecordId;

/// A best route: the number of its source, and the id of its record.
#[derive(Clone, Copy, Debug, PartialEq, Eq)]
pub struct Chosen {
    pub source: u32,
    pub record: RecordId,
}

// One change of the table.
use xb_values::Prefix;

/// A prefix with the place of the part that names it, among the parts of all UPDATEs. Changes are ordered by prefix,
/// and those of one prefix by their parts, so in the order in which they came.
#[derive(Clone, Copy, PartialEq, Eq, PartialOrd, Ord)]
pub(crate) struct Change {
    pub(crate) prefix: Prefix,
    pub(crate) part: usize,
}

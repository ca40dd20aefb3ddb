// The name of a record.
ghost use Rattle.std.specs.Prelude.{◌≡◌};

use std::marker::Model;

/// Names a record of a pool for as long as the record lives. Contracts see a number.
#[derive(Clone, Copy, Debug, PartialEq, Eq, PartialOrd, Ord, Hash)]
pub struct RecordId {
    key: usize,
}

impl Model for RecordId {
    ghost use Rattle.std.specs.Prelude.{ℕ};

    ghost Value = { ℕ };

    ghost view = { λ i. i.key };

    ghost inverse = { λ n. record { key = n } };
}

impl RecordId {
    pub(crate) fn new(key: usize) -> RecordId
        ensures { result ≡ key }
    {
        RecordId { key }
    }

    pub(crate) fn key(self) -> usize
        ensures { result ≡ self }
    {
        self.key
    }
}

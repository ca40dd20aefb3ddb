// The octets of one value.
ghost use Rattle.std.specs.Prelude.{◌≡◌, IfOk};

use std::alloc::{AllocError, Global};
use std::marker::Model;
use xb_words::copy_at;

// The most octets that a value keeps in place: an AS_PATH with one sequence of five AS numbers.
const IN_PLACE: usize = 22;

// Where the octets are: in place if they are few, so that most routes take one block of memory, or else in a block of
// their own.
#[derive(Drop)]
enum Octets {
    Short { len: usize, octets: [u8; IN_PLACE] },
    Long(Vec<u8>),
}

/// The octets of a value.
#[derive(Drop)]
pub(crate) struct Value {
    octets: Octets,
}

impl Model for Value {
    ghost use Rattle.std.specs.Prelude.{ℕ, List};
    ghost use Rattle.rib_table.specs.Values.{octets_of, IsInPlace};

    ghost Value = { List ℕ };

    ghost view = { λ v. octets_of v.octets };

    ghost invariant = { λ v. IsInPlace v.octets };
}

impl Value {
    /// A copy of some octets. The error is want of memory.
    pub(crate) fn copy_of(alloc: Global, value: &[u8]) -> Result<Value, AllocError>
        ensures { IfOk result (λ v. v ≡ value.now) }
    {
        if value.len() > IN_PLACE {
            let octets = Octets::Long(value.to_vec(alloc)?);
            return Ok(Value { octets });
        }
        let mut octets = [0u8; IN_PLACE];
        copy_at(&mut octets, 0, value);
        let octets = Octets::Short {
            len: value.len(),
            octets,
        };
        Ok(Value { octets })
    }

    pub(crate) fn as_slice(&self) -> &[u8]
        ensures { result.now ≡ self.now }
    {
        match &self.octets {
            Octets::Short { len, octets } => &octets[..*len],
            Octets::Long(octets) => octets.as_slice(),
        }
    }
}

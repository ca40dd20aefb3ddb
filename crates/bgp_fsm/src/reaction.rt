// The acts of one reaction: a list of fixed room, so that a reaction takes no memory.
ghost use Rattle.std.specs.Prelude.{◌≡◌, ◌<◌, ◌≤◌, [], ◌∷◌, ◌++◌, length, slice_get, Some};

use crate::Act;
use std::marker::Model;

/// The most acts of one reaction.
pub const MAX_ACTS: usize = 4;

/// The acts of a session at one stimulus, in the order in which they are to be done.
#[derive(Drop)]
pub struct Reaction {
    acts: [Act; MAX_ACTS],
    len: usize,
}

// The first `len` acts are those of the reaction; the others mean nothing.
impl Model for Reaction {
    ghost use Rattle.std.specs.Prelude.{◌≡◌, ◌≤◌, List, length, take};
    ghost use Rattle.bgp_fsm.specs.declared.Act.{Act};
    ghost use Rattle.bgp_fsm.specs.declared.reaction.TheConstants.{MAX_ACTS};

    ghost Value = { List Act };

    ghost view = { λ r. take r.len r.acts };

    ghost invariant = { λ r. (r.len ≤ MAX_ACTS) × (length r.acts ≡ MAX_ACTS) };
}

impl Reaction {
    pub(crate) fn none() -> Reaction
        ensures { result ≡ [] }
    {
        Reaction {
            acts: [Act::Close; MAX_ACTS],
            len: 0,
        }
    }

    pub(crate) fn then(mut self, act: Act) -> Reaction
        requires { length self < MAX_ACTS }
        ensures { result ≡ self ++ act ∷ [] }
    {
        self.acts[self.len] = act;
        self.len += 1;
        self
    }

    fn as_slice(&self) -> &[Act]
        ensures { result.now ≡ self.now }
    {
        &self.acts[..self.len]
    }

    /// The number of acts.
    pub fn len(&self) -> usize
        ensures value { result ≡ length self.now }
        ensures bound { result ≤ MAX_ACTS }
    {
        self.len
    }

    /// The act at an index, from 0.
    pub fn get(&self, i: usize) -> Act
        requires { i < length self.now }
        ensures { slice_get self.now i ≡ Some result }
    {
        self.as_slice()[i]
    }
}

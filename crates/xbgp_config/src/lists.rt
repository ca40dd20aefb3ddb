//! Networks, peers and interior costs, in the order of the text.
ghost use Rattle.std.specs.Prelude.{◌≡◌, ◌<◌, Some, length, slice_get};

use std::marker::Model;
use xb_values::Prefix;

/// A peer: its AS number and its address, whose high octet is the first of the four.
#[derive(Clone, Copy, Debug, PartialEq, Eq)]
pub struct PeerEntry {
    pub asn: u32,
    pub address: u32,
}

/// The interior cost of a next hop.
#[derive(Clone, Copy, Debug, PartialEq, Eq)]
pub struct CostEntry {
    pub next_hop: u32,
    pub cost: u32,
}

/// The networks that the speaker originates.
#[derive(Drop)]
pub struct Networks {
    pub(crate) items: Vec<Prefix>,
}

impl Model for Networks {
    ghost use Rattle.std.specs.Prelude.{List};
    ghost use Rattle.xb_values.specs.Prefixes.{Prefix};

    ghost Value = { List Prefix };

    ghost view = { λ n. n.items.items };
}

impl Networks {
    /// How many there are.
    pub fn len(&self) -> usize
        ensures { result ≡ length self.now }
    {
        self.items.len()
    }

    /// The one at `i`, from 0, in the order of the text.
    pub fn get(&self, i: usize) -> Prefix
        requires { i < length self.now }
        ensures { slice_get self.now i ≡ Some result }
    {
        self.items[i]
    }
}

/// The peers. The peer at `i` has number `i + 1`.
#[derive(Drop)]
pub struct Peers {
    pub(crate) items: Vec<PeerEntry>,
}

impl Model for Peers {
    ghost use Rattle.std.specs.Prelude.{List};
    ghost use Rattle.xbgp_config.specs.declared.lists.PeerEntry.{PeerEntry};

    ghost Value = { List PeerEntry };

    ghost view = { λ p. p.items.items };
}

impl Peers {
    /// How many there are.
    pub fn len(&self) -> usize
        ensures { result ≡ length self.now }
    {
        self.items.len()
    }

    /// The one at `i`, from 0, in the order of the text.
    pub fn get(&self, i: usize) -> &PeerEntry
        requires { i < length self.now }
        ensures { slice_get self.now i ≡ Some result.now }
    {
        &self.items[i]
    }
}

/// The interior costs of next hops. A next hop that is not listed costs 0.
#[derive(Drop)]
pub struct Costs {
    pub(crate) items: Vec<CostEntry>,
}

impl Model for Costs {
    ghost use Rattle.std.specs.Prelude.{List};
    ghost use Rattle.xbgp_config.specs.declared.lists.CostEntry.{CostEntry};

    ghost Value = { List CostEntry };

    ghost view = { λ c. c.items.items };
}

impl Costs {
    /// How many there are.
    pub fn len(&self) -> usize
        ensures { result ≡ length self.now }
    {
        self.items.len()
    }

    /// The one at `i`, from 0, in the order of the text.
    pub fn get(&self, i: usize) -> &CostEntry
        requires { i < length self.now }
        ensures { slice_get self.now i ≡ Some result.now }
    {
        &self.items[i]
    }
}

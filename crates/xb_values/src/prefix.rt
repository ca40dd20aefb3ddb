ghost use Rattle.std.specs.Prelude.{◌≡◌, ◌≤◌, ◌↔◌, IsSome, IfSome};
ghost use Rattle.xb_values.specs.Prefixes.{prefix_of, IsPrefix};

use std::marker::Model;

/// An IPv4 prefix: an address and how many of its bits, from the high one, count. The other bits are 0. The order is by
/// address, then by length.
#[derive(Clone, Copy, Debug, PartialEq, Eq, PartialOrd, Ord)]
pub struct Prefix {
    addr: u32,
    len: u8,
}

impl Model for Prefix {
    ghost use Rattle.xb_values.specs.Prefixes.{Prefix, IsPrefix};

    ghost Value = { Prefix };

    ghost view = { λ p. record { addr = p.addr; len = p.len } };

    ghost inverse = { λ p. record { addr = p.addr; len = p.len } };

    ghost invariant = { λ p. IsPrefix (record { addr = p.addr; len = p.len }) };
}

impl Prefix {
    /// The prefix of that length, with the host bits of the address cleared. None if the length is more than 32.
    #[tactic(auto, using(crate::proofs::PrefixLemmas::prefix_of_is_prefix))]
    pub fn new(addr: u32, len: u8) -> Option<Prefix>
        ensures valid { IsSome result ↔ (len ≤ 32) }
        ensures value { IfSome result (λ p. p ≡ prefix_of addr len) }
    {
        if len > 32 {
            return None;
        }
        let size = 1u64 << (32 - len);
        let addr = u64::from(addr) / size * size;
        Some(Prefix {
            addr: addr as u32,
            len,
        })
    }

    /// The address as a number: its first octet, as it is written and sent, is the high one.
    pub fn addr(&self) -> u32
        ensures value { result ≡ self.now.addr }
        ensures prefix { IsPrefix self.now }
    {
        self.addr
    }

    /// How many bits of the address count, from 0 to 32.
    pub fn len(&self) -> u8
        ensures value { result ≡ self.now.len }
        ensures small { result ≤ 32 }
    {
        self.len
    }
}

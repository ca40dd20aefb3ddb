// Blocks of addresses.
ghost use Rattle.std.specs.Prelude.{◌≡◌, ◌==◌, ◌+◌, ◌-◌, ◌^◌, ◌<◌, ◌≤◌, ◌↔◌, IsTrue};
ghost use Rattle.rib_tree.specs.Blocks.{IsIn, IsPart};

use xb_values::Prefix;

/// The addresses that share all but their last `bits` bits with the first of them.
#[derive(Clone, Copy)]
pub(crate) struct Block {
    first: u32,
    bits: u32,
    ghost small: { bits ≤ 32 },
    ghost fits: { first + 2 ^ bits ≤ 2 ^ 32 },
}

impl Block {
    /// All addresses.
    pub fn whole() -> Block
        ensures first { result.first ≡ 0 }
        ensures bits { result.bits ≡ 32 }
    {
        Block { first: 0, bits: 32 }
    }

    /// All addresses, with that of a prefix among them.
    pub fn around(key: Prefix) -> Block
        ensures first { result.first ≡ 0 }
        ensures bits { result.bits ≡ 32 }
        ensures key { IsIn result.first result.bits key }
    {
        let _ = key.addr();
        Block::whole()
    }

    /// Whether the block has one address alone.
    pub fn is_one(self) -> bool
        ensures { result ≡ (self.bits == 0) }
    {
        self.bits == 0
    }

    /// The first address of the upper half.
    pub fn middle(self) -> u32
        requires { 0 < self.bits }
        ensures { result ≡ self.first + 2 ^ (self.bits - 1) }
    {
        self.first + (1 << (self.bits - 1))
    }

    /// The lower half.
    pub fn low(self) -> Block
        requires { 0 < self.bits }
        ensures first { result.first ≡ self.first }
        ensures bits { result.bits ≡ self.bits - 1 }
    {
        Block {
            first: self.first,
            bits: self.bits - 1,
        }
    }

    /// The upper half.
    pub fn high(self) -> Block
        requires { 0 < self.bits }
        ensures first { result.first ≡ self.first + 2 ^ (self.bits - 1) }
        ensures bits { result.bits ≡ self.bits - 1 }
    {
        Block {
            first: self.middle(),
            bits: self.bits - 1,
        }
    }

    /// Whether the address of a prefix is one of the block.
    pub fn has(self, key: Prefix) -> bool
        ensures { IsTrue result ↔ IsIn self.first self.bits key }
    {
        let addr = u64::from(key.addr());
        let first = u64::from(self.first);
        first <= addr && addr < first + (1u64 << self.bits)
    }

    /// The smallest part that has another part, and a prefix outside that one.
    #[tactic(auto, using(crate::proofs::BlockLemmas::parts))]
    pub fn common(self, inner: Block, key: Prefix) -> Block
        requires part { IsPart self.first self.bits inner.first inner.bits }
        requires key { IsIn self.first self.bits key }
        requires apart { IsIn inner.first inner.bits key → ⊥ }
        ensures part { IsPart self.first self.bits result.first result.bits }
        ensures some { 0 < result.bits }
        ensures key { IsIn result.first result.bits key }
        ensures low { result.first + 2 ^ (result.bits - 1) ≤ key.addr
            → IsPart result.first (result.bits - 1) inner.first inner.bits }
        ensures high { key.addr < result.first + 2 ^ (result.bits - 1)
            → IsPart (result.first + 2 ^ (result.bits - 1)) (result.bits - 1) inner.first inner.bits }
    {
        let middle = self.middle();
        if key.addr() < middle {
            if inner.first < middle {
                self.low().common(inner, key)
            } else {
                self
            }
        } else if inner.first < middle {
            self
        } else {
            self.high().common(inner, key)
        }
    }
}

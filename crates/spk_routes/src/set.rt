// A set of prefixes.
ghost use Rattle.std.specs.Prelude.{◌≡◌, [], ◌∷◌, true, IfSome, IfNone, OnOk, OnErr};
ghost use Rattle.xb_words.specs.Table.{has_key, with_key, with_keys};
ghost use Rattle.xb_values.specs.Prefixes.{are_prefixes, prefix_cmp, prefixes};

use crate::EachPrefix;
use std::alloc::{AllocError, Global};
use std::collections::BTreeSet;
use std::marker::Model;
use xb_values::Prefix;

/// Prefixes, each once. Contracts see them in rising order.
#[derive(Drop)]
pub struct PrefixSet {
    keys: BTreeSet<Prefix>,
}

impl Model for PrefixSet {
    ghost use Rattle.std.specs.Prelude.{List};
    ghost use Rattle.xb_values.specs.Prefixes.{Prefix};

    ghost Value = { List Prefix };

    ghost view = { λ s. s.keys.keys };
}

impl PrefixSet {
    /// The empty set.
    pub fn make(alloc: Global) -> PrefixSet
        ensures { result ≡ [] }
    {
        PrefixSet {
            keys: BTreeSet::new(alloc),
        }
    }

    /// Adds a prefix, which may be there. The error is want of memory; then the set is unchanged.
    pub fn add(&mut self, prefix: Prefix) -> Result<(), AllocError>
        ensures ok { OnOk result (self.new ≡ with_key prefix_cmp self.old prefix) }
        ensures err { OnErr result (self.new ≡ self.old) }
    {
        let _ = self.keys.insert(prefix)?;
        Ok(())
    }

    /// Adds the prefixes that octets write. The error is want of memory; then some may have been added.
    pub fn add_all(&mut self, octets: &[u8]) -> Result<(), AllocError>
        requires { are_prefixes octets.now ≡ true }
        ensures { OnOk result (self.new ≡ with_keys prefix_cmp self.old (prefixes octets.now)) }
    {
        let mut rest = EachPrefix::new(octets);
        'prefixes: while let Some(prefix) = rest.next() {
            self.add(prefix)?;
        }
        Ok(())
    }

    /// Whether the set has a prefix.
    pub fn has(&self, prefix: Prefix) -> bool
        ensures { result ≡ has_key prefix_cmp self.now prefix }
    {
        self.keys.contains(&prefix)
    }

    /// Removes the least prefix and returns it. None if the set is empty.
    pub fn pop_first(&mut self) -> Option<Prefix>
        ensures first { IfSome result (λ p. self.old ≡ p ∷ self.new) }
        ensures empty { IfNone result ((self.old ≡ []) × (self.new ≡ [])) }
    {
        self.keys.pop_first()
    }
}

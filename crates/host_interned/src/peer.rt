// What is removed of the routes that a peer sent.
ghost use Rattle.std.specs.Prelude.{◌≡◌, ◌≤◌, filter, length, not, true};
ghost use Rattle.xb_words.specs.Table.{has_key};
ghost use Rattle.xb_values.specs.Prefixes.{are_prefixes, prefix_cmp, prefixes};
ghost use Rattle.spk_model.specs.Routing.{without_all};
ghost use Rattle.host_interned.specs.Ribs.{tables_in, with_sent, Shows};

use crate::rib::Rib;
use spk_routes::{EachPrefix, PrefixSet};

impl Rib {
    /// Removes the routes that a peer sent of the prefixes that octets write.
    pub(crate) fn remove_all(&mut self, peer: u32, octets: &[u8])
        requires least { 1 ≤ peer }
        requires most { peer ≤ length self.old.tables }
        requires whole { are_prefixes octets.now ≡ true }
        ensures { Shows self.old.own self.old.best
            (with_sent self.old peer (without_all (tables_in self.old peer).adjin (prefixes octets.now))) self.new }
    {
        let mut rest = EachPrefix::new(octets);
        'prefixes: while let Some(prefix) = rest.next() {
            self.remove(peer, prefix);
        }
    }

    /// The same of prefixes that a set does not have.
    pub(crate) fn remove_others(&mut self, peer: u32, octets: &[u8], set: &PrefixSet)
        requires least { 1 ≤ peer }
        requires most { peer ≤ length self.old.tables }
        requires whole { are_prefixes octets.now ≡ true }
        ensures { Shows self.old.own self.old.best
            (with_sent self.old peer (without_all (tables_in self.old peer).adjin
            (filter (λ p. not (has_key prefix_cmp set.now p)) (prefixes octets.now)))) self.new }
    {
        let mut rest = EachPrefix::new(octets);
        'prefixes: while let Some(prefix) = rest.next() {
            if !set.has(prefix) {
                self.remove(peer, prefix);
            }
        }
    }
}

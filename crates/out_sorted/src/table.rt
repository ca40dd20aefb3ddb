// The advertised and told sections of a peer.
ghost use Rattle.std.specs.Prelude.{◌≡◌, ◌<◌, ◌≤◌, ◌↔◌, [], length, is_some, IfOk, IfSome, OnOk, OnErr};
ghost use Rattle.std.specs.Prelude.{IsTrue, IsFalse};
ghost use Rattle.std.specs.Bool.{OnTrue};
ghost use Rattle.std.specs.Option.{option_map};
ghost use Rattle.xb_words.specs.Table.{entry_after, with_value, without, IsRising};
ghost use Rattle.xb_values.specs.Prefixes.{prefix_cmp};
ghost use Rattle.xb_domain.specs.declared.output.Packing.TheVariants.{Sorted};
ghost use Rattle.xb_wire.specs.Messages.{IsMessage};
ghost use Rattle.bgp_write.specs.Pending.{form, pending};
ghost use Rattle.bgp_write.specs.Written.{Replaces};
ghost use Rattle.out_sorted.specs.Told.{told_after, written_after};

use crate::entries::{
    Entries, announce, first_after, first_fresh, first_gone, first_of, next_fresh, next_gone, put,
    take_back, withdraw,
};
use crate::waiting::{Waiting, note};
use std::alloc::{AllocError, Global};
use std::collections::BTreeMap;
use std::marker::Model;
use xb_values::{Buf, Prefix};
use xb_wire::numbers::{MAX_MESSAGE, MAX_SECTION};

/// What is advertised to a peer and what the peer was told, each as sections of path attributes by prefix.
#[derive(Drop)]
pub struct SortedOut {
    alloc: Global,
    entries: Entries,
    // The prefixes that wait to be withdrawn, and those that wait to be announced.
    gone: Waiting,
    fresh: Waiting,
}

impl Model for SortedOut {
    ghost use Rattle.out_sorted.specs.Told.{Told};
    ghost use Rattle.out_sorted.specs.Slots.{told_of, IsKept};

    ghost Value = { Told };

    ghost view = { λ t. told_of t.entries.entries };

    ghost invariant = { λ t. IsKept t.gone t.fresh t.entries.entries };
}

impl SortedOut {
    /// A table that advertises nothing to a peer that was told nothing. The error is want of memory.
    pub fn make(alloc: Global) -> Result<SortedOut, AllocError>
        ensures { IfOk result (λ t. t ≡ record { adv = []; told = [] }) }
    {
        Ok(SortedOut {
            alloc,
            entries: BTreeMap::new(alloc),
            gone: Waiting::none(alloc),
            fresh: Waiting::none(alloc),
        })
    }

    /// Advertises a prefix with a section, in place of an earlier section. The error is want of memory; then the table
    /// is unchanged. A section of at most [`MAX_SECTION`] octets fits into a message with any prefix.
    pub fn set(&mut self, prefix: Prefix, section: &[u8]) -> Result<(), AllocError>
        requires { length section.now ≤ MAX_SECTION }
        ensures ok { OnOk result (self.new
            ≡ record self.old { adv = with_value prefix_cmp self.old.adv prefix section.now }) }
        ensures err { OnErr result (self.new ≡ self.old) }
    {
        let change = put(&mut self.entries, self.alloc, prefix, section)?;
        note(&mut self.gone, &mut self.fresh, prefix, change);
        Ok(())
    }

    /// Advertises a prefix no longer.
    pub fn unset(&mut self, prefix: Prefix)
        ensures { self.new ≡ record self.old { adv = without prefix_cmp self.old.adv prefix } }
    {
        let change = take_back(&mut self.entries, prefix);
        note(&mut self.gone, &mut self.fresh, prefix, change);
    }

    /// Replaces the content of `out` by the next UPDATE, which the peer is then told. False, with `out` unchanged, if
    /// the peer was told all that is advertised and nothing else.
    pub fn next_message(&mut self, out: &mut Buf) -> bool
        requires { MAX_MESSAGE ≤ out.old.capacity }
        ensures formed { result ≡ is_some (form Sorted self.old.adv self.old.told) }
        ensures none { IsFalse result ↔ (pending self.old.adv self.old.told ≡ []) }
        ensures told { self.new
            ≡ record self.old { told = told_after (form Sorted self.old.adv self.old.told) self.old.told } }
        ensures written { Replaces out.old out.new
            (written_after (form Sorted self.old.adv self.old.told) out.old.octets) }
        ensures less { OnTrue result
            (length (pending self.new.adv self.new.told) < length (pending self.old.adv self.old.told)) }
        ensures message { OnTrue result (IsMessage out.new.octets) }
    {
        if let Some(prefix) = next_gone(&self.entries, &mut self.gone) {
            withdraw(&mut self.entries, &mut self.gone, prefix, out);
            return true;
        }
        let Some(prefix) = next_fresh(&self.entries, &mut self.fresh) else {
            return false;
        };
        announce(&mut self.entries, &mut self.fresh, prefix, out);
        true
    }

    /// The first advertised prefix after the one given, or the first of all if none is given, with its section. None
    /// after the last.
    pub fn adv_after(&self, after: Option<Prefix>) -> Option<(Prefix, &[u8])>
        ensures entry { option_map (λ e. (e.0, e.1.now)) result ≡ entry_after prefix_cmp self.now.adv after }
        ensures rising { IsRising prefix_cmp self.now.adv }
        ensures short { IfSome result (λ e. length e.1.now ≤ MAX_SECTION) }
    {
        match after {
            None => first_of(&self.entries),
            Some(prefix) => first_after(&self.entries, prefix),
        }
    }

    /// Whether the peer was told all that is advertised and nothing else, so that no message is to come.
    pub fn is_drained(&self) -> bool
        ensures { IsTrue result ↔ (pending self.now.adv self.now.told ≡ []) }
    {
        first_gone(&self.entries, &self.gone).is_none()
            && first_fresh(&self.entries, &self.fresh).is_none()
    }
}

// What is kept of a peer.
ghost use Rattle.std.specs.Prelude.{◌≡◌, ◌<◌, ◌≤◌, ◌==◌, ◌↔◌, [], length, filter, not, true, is_some, IsFalse};
ghost use Rattle.std.specs.Prelude.{IfOk, IfSome, OnOk, OnErr};
ghost use Rattle.std.specs.Bool.{OnTrue};
ghost use Rattle.std.specs.Map.{keys_of};
ghost use Rattle.std.specs.Option.{option_map};
ghost use Rattle.xb_words.specs.Table.{entry_after, has_key, value_at, with_keys, with_value, without, IsRising};
ghost use Rattle.xb_values.specs.Prefixes.{are_prefixes, prefix_cmp, prefixes};
ghost use Rattle.xb_domain.specs.declared.output.Packing.TheVariants.{Sorted};
ghost use Rattle.xb_wire.specs.declared.numbers.TheConstants.{MAX_MESSAGE, MAX_SECTION};
ghost use Rattle.bgp_write.specs.Pending.{form, pending};
ghost use Rattle.bgp_write.specs.Written.{Replaces};
ghost use Rattle.out_sorted.specs.Told.{told_after, written_after};
ghost use Rattle.spk_model.specs.Routing.{without_all};
ghost use Rattle.spk_routes.specs.Sound.{IsSound};

use out_sorted::SortedOut;
use rib_table::{AttrList, PeerTable};
use spk_routes::{EachPrefix, PrefixSet};
use std::alloc::{AllocError, Global};
use std::marker::Model;
use xb_values::{Buf, Prefix};
use xbgp_view::RouteView;

/// The routes that a peer sent, and what it is advertised and was told.
#[derive(Drop)]
pub(crate) struct PeerTables {
    sent: PeerTable,
    out: SortedOut,
}

impl Model for PeerTables {
    ghost use Rattle.std.specs.List.{AllByRecursion};
    ghost use Rattle.spk_model.specs.Routing.{Tables};
    ghost use Rattle.spk_routes.specs.Sound.{IsSound};

    ghost Value = { Tables };

    ghost view = { λ t. record { adjin = t.sent; adv = t.out.adv; told = t.out.told } };

    ghost invariant = { λ t. AllByRecursion (λ e. IsSound e.1) t.sent };
}

impl PeerTables {
    /// The tables of a peer that sent nothing and is advertised nothing. The error is want of memory.
    pub(crate) fn make(alloc: Global) -> Result<PeerTables, AllocError>
        ensures { IfOk result (λ t. t ≡ record { adjin = []; adv = []; told = [] }) }
    {
        Ok(PeerTables {
            sent: PeerTable::make(alloc)?,
            out: SortedOut::make(alloc)?,
        })
    }

    /// The routes that the peer sent.
    pub(crate) fn sent(&self) -> &PeerTable
        ensures { result.now ≡ self.now.adjin }
    {
        &self.sent
    }

    /// The route that the peer sent of a prefix.
    pub(crate) fn route(&self, prefix: Prefix) -> Option<&AttrList>
        ensures value { option_map (λ l. l.now) result ≡ value_at prefix_cmp self.now.adjin prefix }
        ensures sound { IfSome result (λ l. IsSound l.now) }
    {
        self.sent.get(prefix)
    }

    /// Keeps a copy of a route that the peer sent. The error is want of memory; then nothing changed.
    pub(crate) fn put<R: RouteView>(&mut self, prefix: Prefix, view: &R) -> Result<(), AllocError>
        requires { IsSound (R.route view.now) }
        ensures ok { OnOk result (self.new
            ≡ record self.old { adjin = with_value prefix_cmp self.old.adjin prefix (R.route view.now) }) }
        ensures err { OnErr result (self.new ≡ self.old) }
    {
        self.sent.put(prefix, view)
    }

    /// Removes the route that the peer sent of a prefix.
    pub(crate) fn remove(&mut self, prefix: Prefix)
        ensures { self.new ≡ record self.old { adjin = without prefix_cmp self.old.adjin prefix } }
    {
        let _ = self.sent.remove(prefix);
    }

    /// Removes the routes that the peer sent of the prefixes that octets write.
    pub(crate) fn remove_all(&mut self, octets: &[u8])
        requires { are_prefixes octets.now ≡ true }
        ensures { self.new
            ≡ record self.old { adjin = without_all self.old.adjin (prefixes octets.now) } }
    {
        let mut rest = EachPrefix::new(octets);
        'prefixes: while let Some(prefix) = rest.next() {
            self.remove(prefix);
        }
    }

    /// The same of prefixes that a set does not have.
    pub(crate) fn remove_others(&mut self, octets: &[u8], set: &PrefixSet)
        requires { are_prefixes octets.now ≡ true }
        ensures { self.new ≡ record self.old {
          adjin = without_all self.old.adjin (filter (λ p. not (has_key prefix_cmp set.now p)) (prefixes octets.now));
        } }
    {
        let mut rest = EachPrefix::new(octets);
        'prefixes: while let Some(prefix) = rest.next() {
            if !set.has(prefix) {
                self.remove(prefix);
            }
        }
    }

    /// Advertises a prefix with a section. The error is want of memory; then nothing changed.
    pub(crate) fn advertise(&mut self, prefix: Prefix, section: &[u8]) -> Result<(), AllocError>
        requires { length section.now ≤ MAX_SECTION }
        ensures ok { OnOk result (self.new
            ≡ record self.old { adv = with_value prefix_cmp self.old.adv prefix section.now }) }
        ensures err { OnErr result (self.new ≡ self.old) }
    {
        self.out.set(prefix, section)
    }

    /// Advertises a prefix no longer.
    pub(crate) fn retract(&mut self, prefix: Prefix)
        ensures { self.new ≡ record self.old { adv = without prefix_cmp self.old.adv prefix } }
    {
        self.out.unset(prefix);
    }

    /// Replaces the content of `out` by the next UPDATE to the peer, which is then told what it says. False, with `out`
    /// unchanged, if the peer was told all that it is advertised and nothing else.
    pub(crate) fn next_message(&mut self, out: &mut Buf) -> bool
        requires { MAX_MESSAGE ≤ out.old.capacity }
        ensures formed { result ≡ is_some (form Sorted self.old.adv self.old.told) }
        ensures none { IsFalse result ↔ (pending self.old.adv self.old.told ≡ []) }
        ensures told { self.new
            ≡ record self.old { told = told_after (form Sorted self.old.adv self.old.told) self.old.told } }
        ensures written { Replaces out.old out.new
            (written_after (form Sorted self.old.adv self.old.told) out.old.octets) }
        ensures less { OnTrue result
            (length (pending self.new.adv self.new.told) < length (pending self.old.adv self.old.told)) }
    {
        self.out.next_message(out)
    }

    /// Whether the peer was told all that it is advertised and nothing else.
    pub(crate) fn is_told(&self) -> bool
        ensures { result ≡ (length (pending self.now.adv self.now.told) == 0) }
    {
        self.out.is_drained()
    }

    /// The first prefix that is advertised to the peer after the one given, or the first of all if none is given, with
    /// its section. None after the last.
    pub(crate) fn adv_after(&self, after: Option<Prefix>) -> Option<(Prefix, &[u8])>
        ensures entry { option_map (λ e. (e.0, e.1.now)) result ≡ entry_after prefix_cmp self.now.adv after }
        ensures rising { IsRising prefix_cmp self.now.adv }
        ensures short { IfSome result (λ e. length e.1.now ≤ MAX_SECTION) }
    {
        self.out.adv_after(after)
    }

    /// Adds the prefixes that the peer sent to a set. The error is want of memory; then some may have been added.
    pub(crate) fn add_sent(&self, set: &mut PrefixSet) -> Result<(), AllocError>
        ensures { OnOk result (set.new ≡ with_keys prefix_cmp set.old (keys_of self.now.adjin)) }
    {
        add_prefixes(&self.sent, set)
    }

    /// The same of the prefixes that the peer is advertised.
    pub(crate) fn add_advertised(&self, set: &mut PrefixSet) -> Result<(), AllocError>
        ensures { OnOk result (set.new ≡ with_keys prefix_cmp set.old (keys_of self.now.adv)) }
    {
        add_told(&self.out, set)
    }
}

// Adds the prefixes of a table to a set.
fn add_prefixes(table: &PeerTable, set: &mut PrefixSet) -> Result<(), AllocError>
    ensures { OnOk result (set.new ≡ with_keys prefix_cmp set.old (keys_of table.now)) }
{
    let mut after = None;
    'prefixes: while let Some(prefix) = table.after(after) {
        set.add(prefix)?;
        after = Some(prefix);
    }
    Ok(())
}

// The first advertised prefix after another, or the first of all.
fn told_after(out: &SortedOut, after: Option<Prefix>) -> Option<Prefix>
    ensures prefix { result ≡ option_map (λ e. e.0) (entry_after prefix_cmp out.now.adv after) }
    ensures rising { IsRising prefix_cmp out.now.adv }
{
    match out.adv_after(after) {
        Some((prefix, _)) => Some(prefix),
        None => None,
    }
}

// Adds the prefixes that are advertised to a set.
fn add_told(out: &SortedOut, set: &mut PrefixSet) -> Result<(), AllocError>
    ensures { OnOk result (set.new ≡ with_keys prefix_cmp set.old (keys_of out.now.adv)) }
{
    let mut after = None;
    'prefixes: while let Some(prefix) = told_after(out, after) {
        set.add(prefix)?;
        after = Some(prefix);
    }
    Ok(())
}

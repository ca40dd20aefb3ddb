// The routes of a speaker, as ids of shared records.
ghost use Rattle.std.specs.Prelude.{◌≡◌, ◌<◌, ◌≤◌, ◌==◌, ◌++◌, ◌↔◌, [], length, replicate, flat_map, is_some, IfOk};
ghost use Rattle.std.specs.Prelude.{Some, IfSome, IsSome, IsFalse, IsTrue, OnOk, OnErr};
ghost use Rattle.std.specs.Bool.{OnTrue};
ghost use Rattle.std.specs.List.{AllByRecursion};
ghost use Rattle.std.specs.Map.{keys_of};
ghost use Rattle.std.specs.Option.{option_map};
ghost use Rattle.xb_words.specs.Table.{entry_after, value_at, with_keys, with_value, without, IsRising};
ghost use Rattle.xb_wire.specs.declared.numbers.TheConstants.{MAX_MESSAGE, MAX_SECTION};
ghost use Rattle.xb_values.specs.Prefixes.{prefix_cmp};
ghost use Rattle.xb_domain.specs.declared.output.Packing.TheVariants.{Grouped};
ghost use Rattle.bgp_write.specs.Pending.{form, pending};
ghost use Rattle.bgp_write.specs.Written.{Replaces};
ghost use Rattle.out_grouped.specs.Told.{told_after, written_after};
ghost use Rattle.attr_intern.specs.Pools.{route_at};
ghost use Rattle.spk_model.specs.Routing.{no_tables};
ghost use Rattle.spk_routes.specs.Sound.{IsSound};
ghost use Rattle.host_interned.specs.Ribs.{best_from, route_from, tables_in, with_adv, with_best, with_peer, with_sent};
ghost use Rattle.host_interned.specs.Ribs.{living_by, living_of, sources_by, sources_of, Shows};

use crate::Chosen;
use crate::holding::{find, put_chosen, put_sent, remove_chosen, remove_sent};
use crate::tables::{PeerTables, add_all_known, add_sent};
use attr_intern::{Pool, Record, RecordId};
use out_grouped::GroupedOut;
use rib_tree::Tree;
use spk_routes::PrefixSet;
use std::alloc::{AllocError, Global};
use std::marker::Model;
use xb_values::{Buf, Prefix};
use xbgp_view::RouteView;

/// The best routes, and the tables of the peers. Each id in them is an owner of its record.
#[derive(Drop)]
pub(crate) struct Rib {
    records: Pool,
    // The route of the local networks.
    own: RecordId,
    best: Tree<Chosen>,
    // The peer with number 1 is at 0.
    peers: Vec<PeerTables>,
}

impl Model for Rib {
    ghost use Rattle.host_interned.specs.Ribs.{rib_of, IsKept, RibView};

    ghost Value = { RibView };

    ghost view = { λ r. rib_of r.records r.own r.best r.peers.items };

    ghost invariant = { λ r. IsKept r.records r.own r.best r.peers.items };
}

// Empty tables for some peers.
fn empty_tables(alloc: Global, count: usize) -> Result<Vec<PeerTables>, AllocError>
    ensures { IfOk result (λ v. v.items
        ≡ replicate count (record { sent = []; out = record { adv = []; told = [] } })) }
{
    let mut tables = Vec::new(alloc);
    'peers: for i in 0..count {
        tables.push(PeerTables {
            sent: Tree::make(alloc)?,
            out: GroupedOut::make(alloc)?,
        })?;
    }
    Ok(tables)
}

impl Rib {
    /// A rib without best routes, whose peers sent nothing and are advertised nothing. The route of local networks is
    /// the one that a view shows. The error is want of memory.
    pub(crate) fn make<R: RouteView>(
        alloc: Global,
        own: &R,
        count: usize,
    ) -> Result<Rib, AllocError>
        requires { IsSound (R.route own.now) }
        ensures { IfOk result (Shows (R.route own.now) [] (replicate count no_tables)) }
    {
        let peers = empty_tables(alloc, count)?;
        let best = Tree::make(alloc)?;
        let mut records = Pool::make(alloc)?;
        let own = records.intern(own)?;
        Ok(Rib {
            records,
            own,
            best,
            peers,
        })
    }

    /// The best routes by prefix.
    pub(crate) fn chosen(&self) -> &Tree<Chosen>
        ensures value { result.now ≡ self.now.chosen }
        ensures rising { IsRising prefix_cmp result.now }
        ensures sources { sources_by self.now.chosen ≡ sources_of self.now.best }
    {
        &self.best
    }

    /// The records of all routes.
    pub(crate) fn records(&self) -> &Pool
        ensures value { result.now ≡ self.now.records }
        ensures routes { living_by self.now.records self.now.chosen ≡ living_of self.now.best }
    {
        &self.records
    }

    /// The route of the local networks.
    pub(crate) fn own(&self) -> &Record
        ensures value { result.now ≡ self.now.own }
        ensures sound { IsSound result.now }
    {
        self.records.get(self.own)
    }

    /// The route that a peer sent of a prefix.
    pub(crate) fn sent(&self, peer: u32, prefix: Prefix) -> Option<&Record>
        requires least { 1 ≤ peer }
        requires most { peer ≤ length self.now.tables }
        ensures value { option_map (λ l. l.now) result
            ≡ value_at prefix_cmp (tables_in self.now peer).adjin prefix }
        ensures sound { IfSome result (λ l. IsSound l.now) }
    {
        let id = *find(&self.peers[peer as usize - 1].sent, prefix)?;
        Some(self.records.get(id))
    }

    /// The best route of a prefix, and the number of its source.
    pub(crate) fn best(&self, prefix: Prefix) -> Option<(u32, &Record)>
        ensures value { option_map (λ e. record { source = e.0; route = e.1.now }) result
            ≡ value_at prefix_cmp self.now.best prefix }
        ensures sound { IfSome result (λ e. IsSound e.1.now) }
    {
        let chosen = find(&self.best, prefix)?;
        Some((chosen.source, self.records.get(chosen.record)))
    }

    /// The first prefix with a best route after the one given, or the first of all if none is given. None after the
    /// last.
    pub(crate) fn best_after(&self, after: Option<Prefix>) -> Option<Prefix>
        ensures prefix { result ≡ option_map (λ e. e.0) (entry_after prefix_cmp self.now.best after) }
        ensures rising { IsRising prefix_cmp self.now.best }
    {
        self.best.after(after)
    }

    // The id of the route of a source at a prefix.
    fn id_from(&self, source: u32, prefix: Prefix) -> Option<RecordId>
        requires { source ≤ length self.now.tables }
        ensures { option_map (λ id. route_at self.now.records id) result
            ≡ option_map (λ r. Some r) (route_from self.now.own self.now.tables source prefix) }
    {
        if source == 0 {
            return Some(self.own);
        }
        find(&self.peers[source as usize - 1].sent, prefix).copied()
    }

    // Whether a prefix has this best route.
    fn is_best(&self, prefix: Prefix, source: u32, id: RecordId) -> bool
        ensures { IsTrue result
            ↔ (value_at prefix_cmp self.now.chosen prefix ≡ Some (record { source = source; «record» = id })) }
    {
        match find(&self.best, prefix) {
            Some(best) => best.source == source && best.record == id,
            None => false,
        }
    }

    /// The route of a source at a prefix, which it has, becomes best. The error is want of memory; then nothing
    /// changed.
    pub(crate) fn set_best(&mut self, prefix: Prefix, source: u32) -> Result<(), AllocError>
        requires within { source ≤ length self.old.tables }
        requires known { IsSome (route_from self.old.own self.old.tables source prefix) }
        ensures ok { OnOk result (Shows self.old.own
            (with_best self.old.best prefix (best_from self.old.own self.old.tables source prefix)) self.old.tables
            self.new) }
        ensures err { OnErr result (Shows self.old.own self.old.best self.old.tables self.new) }
    {
        let Some(record) = self.id_from(source, prefix) else {
            return Ok(());
        };
        if self.is_best(prefix, source, record) {
            return Ok(());
        }
        self.records.share(record);
        let chosen = Chosen { source, record };
        put_chosen(&mut self.records, &mut self.best, prefix, chosen)
    }

    /// A prefix has no best route.
    pub(crate) fn unset_best(&mut self, prefix: Prefix)
        ensures { Shows self.old.own (without prefix_cmp self.old.best prefix) self.old.tables self.new }
    {
        remove_chosen(&mut self.records, &mut self.best, prefix);
    }

    /// Keeps the route that a view shows, which a peer sent. The error is want of memory; then nothing changed.
    pub(crate) fn put<R: RouteView>(
        &mut self,
        peer: u32,
        prefix: Prefix,
        view: &R,
    ) -> Result<(), AllocError>
        requires least { 1 ≤ peer }
        requires most { peer ≤ length self.old.tables }
        requires sound { IsSound (R.route view.now) }
        ensures ok { OnOk result (Shows self.old.own self.old.best (with_sent self.old peer
            (with_value prefix_cmp (tables_in self.old peer).adjin prefix (R.route view.now))) self.new) }
        ensures err { OnErr result (Shows self.old.own self.old.best self.old.tables self.new) }
    {
        let id = self.records.intern(view)?;
        let sent = &mut self.peers[peer as usize - 1].sent;
        put_sent(&mut self.records, sent, prefix, id)
    }

    /// Removes the route that a peer sent of a prefix.
    pub(crate) fn remove(&mut self, peer: u32, prefix: Prefix)
        requires least { 1 ≤ peer }
        requires most { peer ≤ length self.old.tables }
        ensures { Shows self.old.own self.old.best
            (with_sent self.old peer (without prefix_cmp (tables_in self.old peer).adjin prefix)) self.new }
    {
        let sent = &mut self.peers[peer as usize - 1].sent;
        remove_sent(&mut self.records, sent, prefix);
    }

    // The first prefix of which a peer sent a route.
    fn first_sent(&self, peer: u32) -> Option<Prefix>
        requires least { 1 ≤ peer }
        requires most { peer ≤ length self.now.tables }
        ensures prefix { result
            ≡ option_map (λ e. e.0) (entry_after prefix_cmp (tables_in self.now peer).adjin None) }
        ensures rising { IsRising prefix_cmp (tables_in self.now peer).adjin }
    {
        self.peers[peer as usize - 1].sent.after(None)
    }

    // Removes the routes that a peer sent.
    fn remove_each(&mut self, peer: u32)
        requires least { 1 ≤ peer }
        requires most { peer ≤ length self.old.tables }
        ensures { Shows self.old.own self.old.best (with_sent self.old peer []) self.new }
    {
        'prefixes: while let Some(prefix) = self.first_sent(peer) {
            self.remove(peer, prefix);
        }
    }

    /// The tables of a peer become empty. The error is want of memory; then nothing changed.
    pub(crate) fn clear(&mut self, alloc: Global, peer: u32) -> Result<(), AllocError>
        requires least { 1 ≤ peer }
        requires most { peer ≤ length self.old.tables }
        ensures ok { OnOk result
            (Shows self.old.own self.old.best (with_peer self.old peer no_tables) self.new) }
        ensures err { OnErr result (Shows self.old.own self.old.best self.old.tables self.new) }
    {
        let out = GroupedOut::make(alloc)?;
        self.remove_each(peer);
        self.peers[peer as usize - 1].out = out;
        Ok(())
    }

    /// Advertises a prefix with a section to a peer. The error is want of memory; then nothing changed.
    pub(crate) fn advertise(
        &mut self,
        peer: u32,
        prefix: Prefix,
        section: &[u8],
    ) -> Result<(), AllocError>
        requires least { 1 ≤ peer }
        requires most { peer ≤ length self.old.tables }
        requires short { length section.now ≤ MAX_SECTION }
        ensures ok { OnOk result (Shows self.old.own self.old.best (with_adv self.old peer
            (with_value prefix_cmp (tables_in self.old peer).adv prefix section.now)) self.new) }
        ensures err { OnErr result (Shows self.old.own self.old.best self.old.tables self.new) }
    {
        self.peers[peer as usize - 1].out.set(prefix, section)
    }

    /// Advertises a prefix to a peer no longer.
    pub(crate) fn retract(&mut self, peer: u32, prefix: Prefix)
        requires least { 1 ≤ peer }
        requires most { peer ≤ length self.old.tables }
        ensures { Shows self.old.own self.old.best
            (with_adv self.old peer (without prefix_cmp (tables_in self.old peer).adv prefix)) self.new }
    {
        self.peers[peer as usize - 1].out.unset(prefix);
    }

    /// Replaces the content of `out` by the next UPDATE to a peer, which is then told what it says. False, with `out`
    /// unchanged, if the peer was told all that it is advertised and nothing else.
    pub(crate) fn next_message(&mut self, peer: u32, out: &mut Buf) -> bool
        requires least { 1 ≤ peer }
        requires most { peer ≤ length self.old.tables }
        requires room { MAX_MESSAGE ≤ out.old.capacity }
        ensures formed { let t = tables_in self.old peer in result ≡ is_some (form Grouped t.adv t.told) }
        ensures told { let t = tables_in self.old peer in Shows self.old.own self.old.best
            (with_peer self.old peer (record t { told = told_after (form Grouped t.adv t.told) t.told })) self.new }
        ensures written { let t = tables_in self.old peer in
            Replaces out.old out.new (written_after (form Grouped t.adv t.told) out.old.octets) }
        ensures less { let t = tables_in self.old peer in let u = tables_in self.new peer in
            OnTrue result (length (pending u.adv u.told) < length (pending t.adv t.told)) }
    {
        self.peers[peer as usize - 1].out.next_message(out)
    }

    /// Whether a peer was told all that it is advertised and nothing else.
    pub(crate) fn is_told(&self, peer: u32) -> bool
        requires least { 1 ≤ peer }
        requires most { peer ≤ length self.now.tables }
        ensures { let t = tables_in self.now peer in result ≡ (length (pending t.adv t.told) == 0) }
    {
        self.peers[peer as usize - 1].out.is_drained()
    }

    /// The first prefix that is advertised to a peer after the one given, or the first of all if none is given, with
    /// its section. None after the last.
    pub(crate) fn adv_after(&self, peer: u32, after: Option<Prefix>) -> Option<(Prefix, &[u8])>
        requires least { 1 ≤ peer }
        requires most { peer ≤ length self.now.tables }
        ensures entry { option_map (λ e. (e.0, e.1.now)) result
            ≡ entry_after prefix_cmp (tables_in self.now peer).adv after }
        ensures rising { IsRising prefix_cmp (tables_in self.now peer).adv }
        ensures short { IfSome result (λ e. length e.1.now ≤ MAX_SECTION) }
    {
        self.peers[peer as usize - 1].out.adv_after(after)
    }

    /// Adds the prefixes that a peer sent to a set. The error is want of memory; then some may have been added.
    pub(crate) fn add_sent(&self, peer: u32, set: &mut PrefixSet) -> Result<(), AllocError>
        requires least { 1 ≤ peer }
        requires most { peer ≤ length self.now.tables }
        ensures { OnOk result (set.new
            ≡ with_keys prefix_cmp set.old (keys_of (tables_in self.now peer).adjin)) }
    {
        add_sent(&self.peers[peer as usize - 1].sent, set)
    }

    /// Adds the prefixes that the peers sent or are advertised to a set. The error is the same.
    pub(crate) fn add_known(&self, set: &mut PrefixSet) -> Result<(), AllocError>
        ensures { OnOk result (set.new ≡ with_keys prefix_cmp set.old
            (flat_map (λ t. keys_of t.adjin ++ keys_of t.adv) self.now.tables)) }
    {
        add_all_known(&self.peers, set)
    }
}

// What a peer is told, and what the routes show.
ghost use Rattle.std.specs.Prelude.{◌≡◌, ◌<◌, ◌≤◌, ◌==◌, true, length};
ghost use Rattle.std.specs.Option.{option_map};
ghost use Rattle.xb_words.specs.Table.{entry_after, has_key, IsRising};
ghost use Rattle.xb_wire.specs.declared.numbers.TheConstants.{MAX_MESSAGE};
ghost use Rattle.xb_values.specs.Prefixes.{prefix_cmp};
ghost use Rattle.xb_domain.specs.declared.output.Packing.TheVariants.{Sorted};
ghost use Rattle.bgp_attr.specs.declared.TheConstants.{MAX_CANONICAL};
ghost use Rattle.bgp_attr.specs.Routes.{canon};
ghost use Rattle.bgp_write.specs.Pending.{form};
ghost use Rattle.xbgp_maps.specs.Mappings.{entry_after_in, key_cmp, mapping_at};
ghost use Rattle.xbgp_points.specs.Chains.{fault_cmp};
ghost use Rattle.spk_model.specs.Readers.{entries_in, showing};
ghost use Rattle.spk_model.specs.Routing.{tables_of};
ghost use Rattle.spk_session.specs.Routed.{waiting, Tells};
ghost use Rattle.host_listed.specs.Meaning.{routing_of, setup_of, IsReady};

use crate::best::Best;
use crate::routing::Core;
use bpf_machine::Cause;
use rib_table::PeerTable;
use std::collections::BTreeMap;
use std::ops::Bound;
use xb_values::{Buf, Prefix};
use xbgp_config::Config;
use xbgp_view::write_section;

// The first best route.
fn first_best(best: &BTreeMap<Prefix, Best>) -> Option<(&Prefix, &Best)>
    ensures entry { option_map (λ e. (e.0.now, e.1.now)) result ≡ entry_after prefix_cmp best.now.entries None }
    ensures rising { IsRising prefix_cmp best.now.entries }
{
    best.iter().next()
}

// The first best route after a prefix.
fn next_best(best: &BTreeMap<Prefix, Best>, prefix: Prefix) -> Option<(&Prefix, &Best)>
    ensures entry { option_map (λ e. (e.0.now, e.1.now)) result
        ≡ entry_after prefix_cmp best.now.entries (Some prefix) }
    ensures rising { IsRising prefix_cmp best.now.entries }
{
    best.range((Bound::Excluded(prefix), Bound::Unbounded))
        .next()
}

// The first best route after a prefix, or the first of all.
fn best_after(best: &BTreeMap<Prefix, Best>, after: Option<Prefix>) -> Option<(&Prefix, &Best)>
    ensures entry { option_map (λ e. (e.0.now, e.1.now)) result ≡ entry_after prefix_cmp best.now.entries after }
    ensures rising { IsRising prefix_cmp best.now.entries }
{
    match after {
        None => first_best(best),
        Some(prefix) => next_best(best, prefix),
    }
}

impl Core {
    /// The configuration.
    pub(crate) fn config(&self) -> &Config
        ensures { result.now ≡ (setup_of self.now).config }
    {
        &self.config
    }

    /// Replaces the content of `out` by the next message that a peer is to be told, and takes what it says for told.
    /// It is false if nothing waits, and then nothing changed.
    pub(crate) fn next_message(&mut self, peer: u32, out: &mut Buf) -> bool
        requires ready { IsReady self.old }
        requires least { 1 ≤ peer }
        requires most { peer ≤ length self.old.config.peers }
        requires room { MAX_MESSAGE ≤ out.old.capacity }
        ensures ready { IsReady self.new }
        ensures setup { setup_of self.new ≡ setup_of self.old }
        ensures tells { let told = tables_of (routing_of self.old) peer in
            Tells (form Sorted told.adv told.told) peer (routing_of self.old) (routing_of self.new)
            out.old out.new result }
        ensures less { result ≡ true
            → length (waiting (routing_of self.new) peer) < length (waiting (routing_of self.old) peer) }
    {
        self.peers[peer as usize - 1].next_message(out)
    }

    /// Whether no prefix waits to be told to a peer.
    pub(crate) fn is_told(&self, peer: u32) -> bool
        requires ready { IsReady self.now }
        requires least { 1 ≤ peer }
        requires most { peer ≤ length self.now.config.peers }
        ensures { result ≡ (length (waiting (routing_of self.now) peer) == 0) }
    {
        self.peers[peer as usize - 1].is_told()
    }

    /// The routes that a peer sent.
    pub(crate) fn table(&self, peer: u32) -> &PeerTable
        requires ready { IsReady self.now }
        requires least { 1 ≤ peer }
        requires most { peer ≤ length self.now.config.peers }
        ensures { result.now ≡ (tables_of (routing_of self.now) peer).adjin }
    {
        self.peers[peer as usize - 1].sent()
    }

    /// The first best route after a prefix, or the first of all: its prefix and the number of its source. Its canonical
    /// section replaces the content of `section`.
    pub(crate) fn route_after(
        &self,
        after: Option<Prefix>,
        section: &mut Buf,
    ) -> Option<(Prefix, u32)>
        requires { MAX_CANONICAL ≤ section.old.capacity }
        ensures rising { IsRising prefix_cmp (routing_of self.now).best }
        ensures entry { let found = entry_after prefix_cmp (routing_of self.now).best after in
            result ≡ option_map (λ e. (e.0, (e.1).source)) found }
        ensures section { let found = entry_after prefix_cmp (routing_of self.now).best after in
            section.new ≡ showing section.old (option_map (λ e. canon (e.1).route) found) }
    {
        let (prefix, best) = best_after(&self.best, after)?;
        write_section(best.route(), section);
        Some((*prefix, best.source()))
    }

    /// The first prefix after another, or the first of all, that a peer is advertised. Its section replaces the content
    /// of `section`.
    pub(crate) fn adv_after(
        &self,
        peer: u32,
        after: Option<Prefix>,
        section: &mut Buf,
    ) -> Option<Prefix>
        requires ready { IsReady self.now }
        requires least { 1 ≤ peer }
        requires most { peer ≤ length self.now.config.peers }
        requires room { MAX_CANONICAL ≤ section.old.capacity }
        ensures rising { IsRising prefix_cmp (tables_of (routing_of self.now) peer).adv }
        ensures entry { let found = entry_after prefix_cmp (tables_of (routing_of self.now) peer).adv after in
            result ≡ option_map (λ e. e.0) found }
        ensures section { let found = entry_after prefix_cmp (tables_of (routing_of self.now) peer).adv after in
            section.new ≡ showing section.old (option_map (λ e. e.1) found) }
    {
        let Some((prefix, octets)) = self.peers[peer as usize - 1].adv_after(after) else {
            return None;
        };
        section.replace(octets);
        Some(prefix)
    }

    /// The first entry of a map after a key, or the first of all.
    pub(crate) fn map_after(&self, map: u32, after: Option<&[u8]>) -> Option<(&[u8], &[u8])>
        ensures rising { IsRising key_cmp (entries_in (mapping_at ((routing_of self.now).engine).maps map)) }
        ensures entry { option_map (λ e. (e.0.now, e.1.now)) result
            ≡ entry_after_in ((routing_of self.now).engine).maps map (option_map (λ k. k.now) after.entry) }
    {
        self.engine.maps().entry_after(map, after)
    }

    /// Whether a fault of a program was noted.
    pub(crate) fn fault_noted(&self, program: u32, cause: Cause) -> bool
        ensures { result ≡ has_key fault_cmp ((routing_of self.now).engine).faults (program, cause) }
    {
        self.engine.noted(program, cause)
    }
}

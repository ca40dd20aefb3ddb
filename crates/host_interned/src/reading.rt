// What a peer is told, and what the routes show.
ghost use Rattle.std.specs.Prelude.{◌≡◌, ◌<◌, ◌≤◌, ◌==◌, true, length};
ghost use Rattle.std.specs.Option.{option_map};
ghost use Rattle.xb_words.specs.Table.{entry_after, has_key, IsRising};
ghost use Rattle.xb_wire.specs.declared.numbers.TheConstants.{MAX_MESSAGE};
ghost use Rattle.xb_values.specs.Prefixes.{prefix_cmp};
ghost use Rattle.xb_domain.specs.declared.output.Packing.TheVariants.{Grouped};
ghost use Rattle.bgp_attr.specs.declared.TheConstants.{MAX_CANONICAL};
ghost use Rattle.bgp_attr.specs.Routes.{canon};
ghost use Rattle.bgp_write.specs.Pending.{form};
ghost use Rattle.xbgp_maps.specs.Mappings.{entry_after_in, key_cmp, mapping_at};
ghost use Rattle.xbgp_points.specs.Chains.{fault_cmp};
ghost use Rattle.spk_model.specs.Readers.{entries_in, showing};
ghost use Rattle.spk_model.specs.Routing.{tables_of};
ghost use Rattle.spk_session.specs.Routed.{waiting, Tells};
ghost use Rattle.host_interned.specs.Ribs.{living_by, living_of, sources_by, sources_of};
ghost use Rattle.host_interned.specs.Meaning.{routing_of, setup_of, IsReady};

use crate::Chosen;
use crate::routing::Core;
use attr_intern::Pool;
use bpf_machine::Cause;
use rib_tree::Tree;
use xb_values::{Buf, Prefix};
use xbgp_config::Config;
use xbgp_view::write_section;

impl Core {
    /// The configuration.
    pub(crate) fn config(&self) -> &Config
        ensures { result.now ≡ (setup_of self.now).config }
    {
        &self.config
    }

    /// Replaces the content of `out` by the next message that a peer is to be told, and takes what it says for told.
    /// It is false if nothing waits, and then nothing changed.
    pub(crate) fn next_message(&mut self, peer: u32, out: &mut Buf) -> bool
        requires ready { IsReady self.old }
        requires least { 1 ≤ peer }
        requires most { peer ≤ length self.old.config.peers }
        requires room { MAX_MESSAGE ≤ out.old.capacity }
        ensures ready { IsReady self.new }
        ensures setup { setup_of self.new ≡ setup_of self.old }
        ensures tells { let told = tables_of (routing_of self.old) peer in
            Tells (form Grouped told.adv told.told) peer (routing_of self.old) (routing_of self.new)
            out.old out.new result }
        ensures less { result ≡ true
            → length (waiting (routing_of self.new) peer) < length (waiting (routing_of self.old) peer) }
    {
        self.rib.next_message(peer, out)
    }

    /// Whether no prefix waits to be told to a peer.
    pub(crate) fn is_told(&self, peer: u32) -> bool
        requires ready { IsReady self.now }
        requires least { 1 ≤ peer }
        requires most { peer ≤ length self.now.config.peers }
        ensures { result ≡ (length (waiting (routing_of self.now) peer) == 0) }
    {
        self.rib.is_told(peer)
    }

    /// The best routes by prefix.
    pub(crate) fn chosen(&self) -> &Tree<Chosen>
        ensures value { result.now ≡ self.now.rib.chosen }
        ensures sources { sources_by self.now.rib.chosen ≡ sources_of self.now.rib.best }
    {
        self.rib.chosen()
    }

    /// The records of all routes.
    pub(crate) fn records(&self) -> &Pool
        ensures value { result.now ≡ self.now.rib.records }
        ensures routes { living_by self.now.rib.records self.now.rib.chosen ≡ living_of self.now.rib.best }
    {
        self.rib.records()
    }

    /// The first best route after a prefix, or the first of all: its prefix and the number of its source. Its canonical
    /// section replaces the content of `section`.
    pub(crate) fn route_after(
        &self,
        after: Option<Prefix>,
        section: &mut Buf,
    ) -> Option<(Prefix, u32)>
        requires { MAX_CANONICAL ≤ section.old.capacity }
        ensures rising { IsRising prefix_cmp (routing_of self.now).best }
        ensures entry { let found = entry_after prefix_cmp (routing_of self.now).best after in
            result ≡ option_map (λ e. (e.0, (e.1).source)) found }
        ensures section { let found = entry_after prefix_cmp (routing_of self.now).best after in
            section.new ≡ showing section.old (option_map (λ e. canon (e.1).route) found) }
    {
        let prefix = self.rib.best_after(after)?;
        let (source, best) = self.rib.best(prefix)?;
        write_section(best, section);
        Some((prefix, source))
    }

    /// The first prefix after another, or the first of all, that a peer is advertised. Its section replaces the content
    /// of `section`.
    pub(crate) fn adv_after(
        &self,
        peer: u32,
        after: Option<Prefix>,
        section: &mut Buf,
    ) -> Option<Prefix>
        requires ready { IsReady self.now }
        requires least { 1 ≤ peer }
        requires most { peer ≤ length self.now.config.peers }
        requires room { MAX_CANONICAL ≤ section.old.capacity }
        ensures rising { IsRising prefix_cmp (tables_of (routing_of self.now) peer).adv }
        ensures entry { let found = entry_after prefix_cmp (tables_of (routing_of self.now) peer).adv after in
            result ≡ option_map (λ e. e.0) found }
        ensures section { let found = entry_after prefix_cmp (tables_of (routing_of self.now) peer).adv after in
            section.new ≡ showing section.old (option_map (λ e. e.1) found) }
    {
        let Some((prefix, octets)) = self.rib.adv_after(peer, after) else {
            return None;
        };
        section.replace(octets);
        Some(prefix)
    }

    /// The first entry of a map after a key, or the first of all.
    pub(crate) fn map_after(&self, map: u32, after: Option<&[u8]>) -> Option<(&[u8], &[u8])>
        ensures rising { IsRising key_cmp (entries_in (mapping_at ((routing_of self.now).engine).maps map)) }
        ensures entry { option_map (λ e. (e.0.now, e.1.now)) result
            ≡ entry_after_in ((routing_of self.now).engine).maps map (option_map (λ k. k.now) after.entry) }
    {
        self.engine.maps().entry_after(map, after)
    }

    /// Whether a fault of a program was noted.
    pub(crate) fn fault_noted(&self, program: u32, cause: Cause) -> bool
        ensures { result ≡ has_key fault_cmp ((routing_of self.now).engine).faults (program, cause) }
    {
        self.engine.noted(program, cause)
    }
}

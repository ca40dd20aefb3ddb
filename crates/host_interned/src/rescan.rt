// Prefixes that are decided and exported again.
ghost use Rattle.std.specs.Prelude.{◌≡◌, ◌≤◌, ◌++◌, flat_map, length, IfOk, OnOk};
ghost use Rattle.std.specs.Map.{keys_of};
ghost use Rattle.xb_words.specs.Table.{set_of, with_keys};
ghost use Rattle.xb_values.specs.Prefixes.{prefix_cmp};
ghost use Rattle.spk_model.specs.Routing.{lose, no_tables, set_tables, settle_all};
ghost use Rattle.spk_model.specs.Turning.{known_prefixes};
ghost use Rattle.host_interned.specs.Ribs.{tables_in};
ghost use Rattle.host_interned.specs.Meaning.{Goes, IsReady};

use crate::rib::Rib;
use crate::routing::Core;
use bgp_fsm::Session;
use spk_routes::PrefixSet;
use std::alloc::{AllocError, Global};
use xbgp_config::{Config, Networks};

// Adds networks to a set.
fn add_networks(networks: &Networks, set: &mut PrefixSet) -> Result<(), AllocError>
    ensures { OnOk result (set.new ≡ with_keys prefix_cmp set.old networks.now) }
{
    'networks: for i in 0..networks.len() {
        set.add(networks.get(i))?;
    }
    Ok(())
}

// Adds the networks of a configuration to a set.
fn add_local(config: &Config, set: &mut PrefixSet) -> Result<(), AllocError>
    ensures { OnOk result (set.new ≡ with_keys prefix_cmp set.old config.now.networks) }
{
    add_networks(&config.networks, set)
}

// The prefixes that have a candidate or are advertised.
fn known(alloc: Global, config: &Config, rib: &Rib) -> Result<PrefixSet, AllocError>
    ensures { IfOk result (λ set. set ≡ set_of prefix_cmp
        (config.now.networks ++ flat_map (λ t. keys_of t.adjin ++ keys_of t.adv) rib.now.tables)) }
{
    let mut set = PrefixSet::make(alloc);
    add_local(config, &mut set)?;
    rib.add_known(&mut set)?;
    Ok(set)
}

// The prefixes that a peer sent.
fn sent_by(alloc: Global, rib: &Rib, peer: u32) -> Result<PrefixSet, AllocError>
    requires least { 1 ≤ peer }
    requires most { peer ≤ length rib.now.tables }
    ensures { IfOk result (λ set. set ≡ set_of prefix_cmp (keys_of (tables_in rib.now peer).adjin)) }
{
    let mut set = PrefixSet::make(alloc);
    rib.add_sent(peer, &mut set)?;
    Ok(set)
}

impl Core {
    // A peer sent nothing and is advertised nothing.
    fn clear_tables(&mut self, alloc: Global, peer: u32) -> Result<(), AllocError>
        requires ready { IsReady self.old }
        requires least { 1 ≤ peer }
        requires most { peer ≤ length self.old.config.peers }
        ensures { Goes result (λ setup t. set_tables t peer no_tables) self.old self.new }
    {
        self.rib.clear(alloc, peer)
    }

    /// The session of a peer went down: its tables become empty, and the prefixes that it sent are decided again.
    pub(crate) fn lose(
        &mut self,
        alloc: Global,
        sessions: &[Session],
        peer: u32,
    ) -> Result<(), AllocError>
        requires ready { IsReady self.old }
        requires all { length sessions.now ≡ length self.old.config.peers }
        requires least { 1 ≤ peer }
        requires most { peer ≤ length self.old.config.peers }
        ensures { Goes result (λ setup t. lose setup sessions.now t peer) self.old self.new }
    {
        let prefixes = sent_by(alloc, &self.rib, peer)?;
        self.clear_tables(alloc, peer)?;
        self.settle_set(alloc, sessions, prefixes)
    }

    /// Decides and exports every known prefix again.
    pub(crate) fn rescan(&mut self, alloc: Global, sessions: &[Session]) -> Result<(), AllocError>
        requires ready { IsReady self.old }
        requires all { length sessions.now ≡ length self.old.config.peers }
        ensures { Goes result
            (λ setup t. settle_all setup sessions.now t (known_prefixes setup t.routing)) self.old self.new }
    {
        let prefixes = known(alloc, &self.config, &self.rib)?;
        self.settle_set(alloc, sessions, prefixes)
    }
}

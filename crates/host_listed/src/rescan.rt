// Prefixes that are decided and exported again.
ghost use Rattle.std.specs.Prelude.{◌≡◌, ◌≤◌, ◌++◌, flat_map, length, IfOk, OnOk};
ghost use Rattle.std.specs.Map.{keys_of};
ghost use Rattle.xb_words.specs.Table.{set_of, with_keys};
ghost use Rattle.xb_values.specs.Prefixes.{prefix_cmp};
ghost use Rattle.spk_model.specs.Routing.{lose, no_tables, set_tables, settle_all};
ghost use Rattle.spk_model.specs.Turning.{known_prefixes};
ghost use Rattle.host_listed.specs.Meaning.{Goes, IsReady};

use crate::routing::Core;
use crate::tables::PeerTables;
use bgp_fsm::Session;
use spk_routes::PrefixSet;
use std::alloc::{AllocError, Global};
use xbgp_config::{Config, Networks};

// Adds networks to a set.
fn add_networks(networks: &Networks, set: &mut PrefixSet) -> Result<(), AllocError>
    ensures { OnOk result (set.new ≡ with_keys prefix_cmp set.old networks.now) }
{
    'networks: for i in 0..networks.len() {
        set.add(networks.get(i))?;
    }
    Ok(())
}

// Adds the networks of a configuration to a set.
fn add_local(config: &Config, set: &mut PrefixSet) -> Result<(), AllocError>
    ensures { OnOk result (set.new ≡ with_keys prefix_cmp set.old config.now.networks) }
{
    add_networks(&config.networks, set)
}

// Adds the prefixes that a peer sent or is advertised to a set.
fn add_known(tables: &PeerTables, set: &mut PrefixSet) -> Result<(), AllocError>
    ensures { OnOk result (set.new
        ≡ with_keys prefix_cmp set.old (keys_of tables.now.adjin ++ keys_of tables.now.adv)) }
{
    tables.add_sent(set)?;
    tables.add_advertised(set)
}

// The prefixes that have a candidate or are advertised.
fn known(alloc: Global, config: &Config, peers: &[PeerTables]) -> Result<PrefixSet, AllocError>
    ensures { IfOk result (λ set. set ≡ set_of prefix_cmp
        (config.now.networks ++ flat_map (λ t. keys_of t.adjin ++ keys_of t.adv) peers.now)) }
{
    let mut set = PrefixSet::make(alloc);
    add_local(config, &mut set)?;
    'peers: for peer in peers {
        add_known(peer, &mut set)?;
    }
    Ok(set)
}

// The prefixes that a peer sent.
fn sent_by(alloc: Global, tables: &PeerTables) -> Result<PrefixSet, AllocError>
    ensures { IfOk result (λ set. set ≡ set_of prefix_cmp (keys_of tables.now.adjin)) }
{
    let mut set = PrefixSet::make(alloc);
    tables.add_sent(&mut set)?;
    Ok(set)
}

impl Core {
    // A peer sent nothing and is advertised nothing.
    fn clear_tables(&mut self, alloc: Global, peer: u32) -> Result<(), AllocError>
        requires ready { IsReady self.old }
        requires least { 1 ≤ peer }
        requires most { peer ≤ length self.old.config.peers }
        ensures { Goes result (λ setup t. set_tables t peer no_tables) self.old self.new }
    {
        self.peers[peer as usize - 1] = PeerTables::make(alloc)?;
        Ok(())
    }

    /// The session of a peer went down: its tables become empty, and the prefixes that it sent are decided again.
    pub(crate) fn lose(
        &mut self,
        alloc: Global,
        sessions: &[Session],
        peer: u32,
    ) -> Result<(), AllocError>
        requires ready { IsReady self.old }
        requires all { length sessions.now ≡ length self.old.config.peers }
        requires least { 1 ≤ peer }
        requires most { peer ≤ length self.old.config.peers }
        ensures { Goes result (λ setup t. lose setup sessions.now t peer) self.old self.new }
    {
        let prefixes = sent_by(alloc, &self.peers[peer as usize - 1])?;
        self.clear_tables(alloc, peer)?;
        self.settle_set(alloc, sessions, prefixes)
    }

    /// Decides and exports every known prefix again.
    pub(crate) fn rescan(&mut self, alloc: Global, sessions: &[Session]) -> Result<(), AllocError>
        requires ready { IsReady self.old }
        requires all { length sessions.now ≡ length self.old.config.peers }
        ensures { Goes result
            (λ setup t. settle_all setup sessions.now t (known_prefixes setup t.routing)) self.old self.new }
    {
        let prefixes = known(alloc, &self.config, &self.peers)?;
        self.settle_set(alloc, sessions, prefixes)
    }
}

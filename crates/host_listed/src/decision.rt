// The candidates of a prefix, and the best among them.
ghost use Rattle.std.specs.Prelude.{◌≡◌, ◌≤◌, length, IfOk, MatchResult};
ghost use Rattle.xbgp_config.specs.declared.limits.TheConstants.{MAX_PEERS};
ghost use Rattle.spk_model.specs.Sources.{local_route};
ghost use Rattle.spk_routes.specs.Candidates.{shown};
ghost use Rattle.host_listed.specs.Deciding.{AreFound, IsWinner};

use crate::best::Best;
use crate::tables::PeerTables;
use bgp_fsm::Session;
use rib_table::AttrList;
use spk_model::{Field, choose};
use spk_routes::{Contenders, is_network, local_of, side_of};
use std::alloc::{AllocError, Global};
use xb_values::Prefix;
use xbgp_config::Config;
use xbgp_points::Engine;

// The routes that a prefix has, by rising number of their sources.
fn gather<'a>(
    alloc: Global,
    config: &Config,
    own: &'a Best,
    peers: &'a [PeerTables],
    sessions: &[Session],
    prefix: Prefix,
) -> Result<Contenders<'a, AttrList>, AllocError>
    requires own { own.now ≡ record { source = 0; route = local_route config.now } }
    requires all { length sessions.now ≡ length config.now.peers }
    requires count { length peers.now ≡ length config.now.peers }
    ensures { IfOk result (λ found.
        AreFound config.now sessions.now peers.now prefix (length peers.now) (shown (λ r. r) found)) }
{
    let local = local_of(config);
    let mut found = Contenders::make(alloc);
    if is_network(config, prefix) {
        found.add(config, local, own.route())?;
    }
    'peers: for (i, peer) in peers.iter().enumerate() {
        if let Some(route) = peer.route(prefix) {
            found.add(config, side_of(config, sessions, i as u32 + 1), route)?;
        }
    }
    Ok(found)
}

/// The best of the routes that a prefix has, if it has one.
pub(crate) fn winner(
    alloc: Global,
    config: &Config,
    engine: &mut Engine,
    own: &Best,
    peers: &[PeerTables],
    sessions: &[Session],
    prefix: Prefix,
) -> Result<Option<Best>, AllocError>
    requires own { own.now ≡ record { source = 0; route = local_route config.now } }
    requires all { length sessions.now ≡ length config.now.peers }
    requires few { length config.now.peers ≤ MAX_PEERS }
    requires count { length peers.now ≡ length config.now.peers }
    ensures { MatchResult result (IsWinner config.now engine.old engine.new peers.now sessions.now prefix)
        (λ e. engine.new.local ≡ engine.old.local) }
{
    let found = gather(alloc, config, own, peers, sessions, prefix)?;
    if found.count() == 0 {
        return Ok(None);
    }
    let i = choose(engine, prefix, &found);
    let best = Best::copy_of(alloc, found.side(i).number, found.view(i))?;
    Ok(Some(best))
}

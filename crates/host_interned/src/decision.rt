// The candidates of a prefix, and the best among them.
ghost use Rattle.std.specs.Prelude.{◌≡◌, ◌≤◌, length, IfOk, MatchResult};
ghost use Rattle.xbgp_config.specs.declared.limits.TheConstants.{MAX_PEERS};
ghost use Rattle.spk_model.specs.Sources.{local_route};
ghost use Rattle.spk_routes.specs.Candidates.{shown};
ghost use Rattle.host_interned.specs.Deciding.{AreFound, IsWinner};

use crate::rib::Rib;
use attr_intern::Record;
use bgp_fsm::Session;
use spk_model::{Field, choose};
use spk_routes::{Contenders, is_network, local_of, side_of};
use std::alloc::{AllocError, Global};
use xb_values::Prefix;
use xbgp_config::Config;
use xbgp_points::Engine;

// The routes that a prefix has, by rising number of their sources.
fn gather<'a>(
    alloc: Global,
    config: &Config,
    rib: &'a Rib,
    sessions: &[Session],
    prefix: Prefix,
) -> Result<Contenders<'a, Record>, AllocError>
    requires own { rib.now.own ≡ local_route config.now }
    requires all { length sessions.now ≡ length config.now.peers }
    requires count { length rib.now.tables ≡ length config.now.peers }
    ensures { IfOk result (λ found.
        AreFound config.now sessions.now rib.now.tables prefix (length rib.now.tables) (shown (λ r. r) found)) }
{
    let local = local_of(config);
    let mut found = Contenders::make(alloc);
    if is_network(config, prefix) {
        found.add(config, local, rib.own())?;
    }
    'peers: for i in 0..sessions.len() {
        let peer = i as u32 + 1;
        if let Some(route) = rib.sent(peer, prefix) {
            found.add(config, side_of(config, sessions, peer), route)?;
        }
    }
    Ok(found)
}

/// The source of the best of the routes that a prefix has, if it has one.
pub(crate) fn winner(
    alloc: Global,
    config: &Config,
    engine: &mut Engine,
    rib: &Rib,
    sessions: &[Session],
    prefix: Prefix,
) -> Result<Option<u32>, AllocError>
    requires own { rib.now.own ≡ local_route config.now }
    requires all { length sessions.now ≡ length config.now.peers }
    requires few { length config.now.peers ≤ MAX_PEERS }
    requires count { length rib.now.tables ≡ length config.now.peers }
    ensures { MatchResult result
        (IsWinner config.now engine.old engine.new rib.now.tables sessions.now prefix)
        (λ e. engine.new.local ≡ engine.old.local) }
{
    let found = gather(alloc, config, rib, sessions, prefix)?;
    if found.count() == 0 {
        return Ok(None);
    }
    let i = choose(engine, prefix, &found);
    Ok(Some(found.side(i).number))
}

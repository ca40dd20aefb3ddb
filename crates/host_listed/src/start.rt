// The routes of a speaker that was not started yet.
ghost use Rattle.std.specs.Prelude.{◌≡◌, [], replicate, IfOk};
ghost use Rattle.spk_model.specs.Sources.{local_route};
ghost use Rattle.spk_model.specs.Routing.{no_tables};
ghost use Rattle.spk_routes.specs.Sound.{IsSound};
ghost use Rattle.host_listed.specs.Starting.{with_networks, AreFirst, IsStarted};

use crate::best::Best;
use crate::routing::Core;
use crate::tables::PeerTables;
use bgp_attr::MAX_CANONICAL;
use bgp_attr::codes::{AS_PATH, NEXT_HOP, ORIGIN};
use bgp_attr::flags::WELL_KNOWN;
use spk_model::Setup;
use spk_routes::{Exporter, local_of};
use std::alloc::{AllocError, Global};
use std::collections::BTreeMap;
use xb_values::Prefix;
use xbgp_config::{Config, Networks};
use xbgp_points::Engine;
use xbgp_view::Overlay;

// The tables of a core before the first event.
#[derive(Drop)]
struct FirstTables {
    own: Best,
    best: BTreeMap<Prefix, Best>,
    peers: Vec<PeerTables>,
}

// What a core works in. What it holds at the start doesn't matter.
#[derive(Drop)]
struct Workspace {
    received: Overlay,
    route: Overlay,
    exporter: Exporter,
}

// The route of a local network.
fn own_overlay(alloc: Global, config: &Config) -> Result<Overlay, AllocError>
    ensures route { IfOk result (λ o. o.route ≡ local_route config.now) }
    ensures sound { IfOk result (λ o. IsSound o.route) }
{
    let local = local_of(config);
    let mut route = Overlay::make(alloc)?;
    let _ = route.set(ORIGIN, WELL_KNOWN, &[0], MAX_CANONICAL);
    let _ = route.set(AS_PATH, WELL_KNOWN, &[], MAX_CANONICAL);
    let _ = route.set(
        NEXT_HOP,
        WELL_KNOWN,
        &local.address.to_be_bytes(),
        MAX_CANONICAL,
    );
    Ok(route)
}

// The best route of a local network, if it is best.
fn own_route(alloc: Global, config: &Config) -> Result<Best, AllocError>
    ensures { IfOk result (λ b. b ≡ record { source = 0; route = local_route config.now }) }
{
    let route = own_overlay(alloc, config)?;
    Best::copy_of(alloc, 0, &route)
}

// Empty tables for some peers.
fn empty_tables(alloc: Global, count: usize) -> Result<Vec<PeerTables>, AllocError>
    ensures { IfOk result (λ v. v.items ≡ replicate count no_tables) }
{
    let mut tables = Vec::new(alloc);
    'peers: for i in 0..count {
        tables.push(PeerTables::make(alloc)?)?;
    }
    Ok(tables)
}

// The local networks, each with the speaker's own route.
fn local_networks(
    alloc: Global,
    networks: &Networks,
    own: &Best,
) -> Result<BTreeMap<Prefix, Best>, AllocError>
    ensures { IfOk result (λ best. best.entries ≡ with_networks own.now.route [] networks.now) }
{
    let mut best = BTreeMap::new(alloc);
    'networks: for i in 0..networks.len() {
        let copy = Best::copy_of(alloc, 0, own.route())?;
        let _ = best.insert(networks.get(i), copy)?;
    }
    Ok(best)
}

impl FirstTables {
    fn make(alloc: Global, config: &Config) -> Result<FirstTables, AllocError>
        ensures { IfOk result (AreFirst config.now) }
    {
        let own = own_route(alloc, config)?;
        let best = local_networks(alloc, &config.networks, &own)?;
        let peers = empty_tables(alloc, config.peers.len())?;
        Ok(FirstTables { own, best, peers })
    }
}

impl Workspace {
    fn make(alloc: Global) -> Result<Workspace, AllocError> {
        Ok(Workspace {
            received: Overlay::make(alloc)?,
            route: Overlay::make(alloc)?,
            exporter: Exporter::make(alloc)?,
        })
    }
}

// A core of its parts, and of an engine that was not called yet.
fn core_of(
    alloc: Global,
    setup: Setup,
    tables: FirstTables,
    workspace: Workspace,
) -> Result<Core, AllocError>
    requires { AreFirst setup.config tables }
    ensures { IfOk result (IsStarted setup) }
{
    let Setup { config, manifest } = setup;
    let engine = Engine::make(alloc, manifest, local_of(&config))?;
    Ok(Core {
        config,
        engine,
        own: tables.own,
        best: tables.best,
        peers: tables.peers,
        received: workspace.received,
        route: workspace.route,
        exporter: workspace.exporter,
    })
}

impl Core {
    /// The routes before the first event: the local networks are best.
    pub(crate) fn make(alloc: Global, setup: Setup) -> Result<Core, AllocError>
        ensures { IfOk result (IsStarted setup) }
    {
        let tables = FirstTables::make(alloc, &setup.config)?;
        let workspace = Workspace::make(alloc)?;
        core_of(alloc, setup, tables, workspace)
    }
}

// The routes of a speaker that was not started yet.
ghost use Rattle.std.specs.Prelude.{◌≡◌, IfOk, OnOk};
ghost use Rattle.spk_model.specs.Sources.{local_route};
ghost use Rattle.spk_routes.specs.Sound.{IsSound};
ghost use Rattle.host_interned.specs.Ribs.{Shows};
ghost use Rattle.host_interned.specs.Starting.{with_networks, IsFirst, IsStarted};

use crate::rib::Rib;
use crate::routing::Core;
use bgp_attr::MAX_CANONICAL;
use bgp_attr::codes::{AS_PATH, NEXT_HOP, ORIGIN};
use bgp_attr::flags::WELL_KNOWN;
use spk_model::Setup;
use spk_routes::{Exporter, local_of};
use std::alloc::{AllocError, Global};
use xbgp_config::{Config, Networks};
use xbgp_points::Engine;
use xbgp_view::Overlay;

// What a core works in. What it holds at the start doesn't matter.
#[derive(Drop)]
struct Workspace {
    received: Overlay,
    route: Overlay,
    exporter: Exporter,
}

// The route of a local network.
fn own_overlay(alloc: Global, config: &Config) -> Result<Overlay, AllocError>
    ensures route { IfOk result (λ o. o.route ≡ local_route config.now) }
    ensures sound { IfOk result (λ o. IsSound o.route) }
{
    let local = local_of(config);
    let mut route = Overlay::make(alloc)?;
    let _ = route.set(ORIGIN, WELL_KNOWN, &[0], MAX_CANONICAL);
    let _ = route.set(AS_PATH, WELL_KNOWN, &[], MAX_CANONICAL);
    let _ = route.set(
        NEXT_HOP,
        WELL_KNOWN,
        &local.address.to_be_bytes(),
        MAX_CANONICAL,
    );
    Ok(route)
}

// The local networks, each with the speaker's own route, become best.
fn set_networks(rib: &mut Rib, networks: &Networks) -> Result<(), AllocError>
    ensures { OnOk result (Shows rib.old.own (with_networks rib.old.own rib.old.best networks.now) rib.old.tables
        rib.new) }
{
    'networks: for i in 0..networks.len() {
        rib.set_best(networks.get(i), 0)?;
    }
    Ok(())
}

// The routes before the first event: the local networks are best.
fn first_rib(alloc: Global, config: &Config) -> Result<Rib, AllocError>
    ensures { IfOk result (IsFirst config.now) }
{
    let own = own_overlay(alloc, config)?;
    let mut rib = Rib::make(alloc, &own, config.peers.len())?;
    set_networks(&mut rib, &config.networks)?;
    Ok(rib)
}

impl Workspace {
    fn make(alloc: Global) -> Result<Workspace, AllocError> {
        Ok(Workspace {
            received: Overlay::make(alloc)?,
            route: Overlay::make(alloc)?,
            exporter: Exporter::make(alloc)?,
        })
    }
}

// A core of its parts, and of an engine that was not called yet.
fn core_of(alloc: Global, setup: Setup, rib: Rib, workspace: Workspace) -> Result<Core, AllocError>
    requires { IsFirst setup.config rib }
    ensures { IfOk result (IsStarted setup) }
{
    let Setup { config, manifest } = setup;
    let engine = Engine::make(alloc, manifest, local_of(&config))?;
    Ok(Core {
        config,
        engine,
        rib,
        received: workspace.received,
        route: workspace.route,
        exporter: workspace.exporter,
    })
}

impl Core {
    /// The routes before the first event: the local networks are best.
    pub(crate) fn make(alloc: Global, setup: Setup) -> Result<Core, AllocError>
        ensures { IfOk result (IsStarted setup) }
    {
        let rib = first_rib(alloc, &setup.config)?;
        let workspace = Workspace::make(alloc)?;
        core_of(alloc, setup, rib, workspace)
    }
}

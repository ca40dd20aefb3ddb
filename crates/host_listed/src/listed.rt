// The routes' half of a speaker, and the host.
ghost use Rattle.std.specs.Prelude.{◌≡◌};
ghost use Rattle.xb_domain.specs.declared.output.Packing.TheVariants.{Sorted};
ghost use Rattle.spk_model.specs.Readers.{IsPeer};
ghost use Rattle.spk_model.specs.Routing.{tables_of};

use crate::routing::Core;
use bgp_fsm::Session;
use bpf_machine::Cause;
use rib_table::PeerTable;
use spk_model::{Host, Setup};
use spk_session::{Routes, Sessions};
use std::alloc::{AllocError, Global};
use std::marker::Model;
use xb_domain::{Event, Outputs, Packing};
use xb_values::{Buf, Prefix};
use xbgp_config::Config;

/// The routes' half of a speaker: for each peer a table of lists of attributes and what it is advertised by rising
/// prefix, and the best routes in an ordered map.
#[derive(Drop)]
pub struct ListedRoutes {
    core: Core,
}

impl Model for ListedRoutes {
    ghost use Rattle.spk_model.specs.declared.host.Setup.{Setup};
    ghost use Rattle.spk_model.specs.Routing.{Routing};
    ghost use Rattle.host_listed.specs.Meaning.{routing_of, setup_of, IsReady};

    ghost Value = { Setup × Routing };

    ghost view = { λ r. (setup_of r.core, routing_of r.core) };

    ghost invariant = { λ r. IsReady r.core };
}

impl Routes for ListedRoutes {
    ghost built_from = { λ r. r.0 };

    ghost routing = { λ r. r.1 };

    ghost RULE = { Sorted };

    const RULE: Packing = Packing::Sorted;

    fn make(alloc: Global, setup: Setup) -> Result<Self, AllocError> {
        Ok(ListedRoutes {
            core: Core::make(alloc, setup)?,
        })
    }

    fn config(&self) -> &Config {
        self.core.config()
    }

    fn update(
        &mut self,
        alloc: Global,
        sessions: &[Session],
        now: u32,
        peer: u32,
        body: &[u8],
    ) -> Result<(), AllocError> {
        self.core.update(alloc, sessions, now, peer, body)
    }

    fn export_all(
        &mut self,
        alloc: Global,
        sessions: &[Session],
        peer: u32,
    ) -> Result<(), AllocError> {
        self.core.export_all(alloc, sessions, peer)
    }

    fn lose(&mut self, alloc: Global, sessions: &[Session], peer: u32) -> Result<(), AllocError> {
        self.core.lose(alloc, sessions, peer)
    }

    fn rescan(&mut self, alloc: Global, sessions: &[Session]) -> Result<(), AllocError> {
        self.core.rescan(alloc, sessions)
    }

    fn next_message(&mut self, peer: u32, out: &mut Buf) -> bool {
        self.core.next_message(peer, out)
    }

    fn is_told(&self, peer: u32) -> bool {
        self.core.is_told(peer)
    }

    fn route_after(&self, after: Option<Prefix>, section: &mut Buf) -> Option<(Prefix, u32)> {
        self.core.route_after(after, section)
    }

    fn adv_after(&self, peer: u32, after: Option<Prefix>, section: &mut Buf) -> Option<Prefix> {
        self.core.adv_after(peer, after, section)
    }

    fn map_after(&self, map: u32, after: Option<&[u8]>) -> Option<(&[u8], &[u8])> {
        self.core.map_after(map, after)
    }

    fn fault_noted(&self, program: u32, cause: Cause) -> bool {
        self.core.fault_noted(program, cause)
    }
}

impl ListedRoutes {
    // The routes that a peer sent.
    fn table(&self, peer: u32) -> &PeerTable
        requires { IsPeer self.now.0 peer }
        ensures { result.now ≡ (tables_of self.now.1 peer).adjin }
    {
        self.core.table(peer)
    }
}

/// A host that keeps lists of attributes.
#[derive(Drop)]
pub struct Listed {
    sessions: Sessions<ListedRoutes>,
}

impl Host for Listed {
    ghost built_from = { λ h. ⟦<Sessions<ListedRoutes> as Host>⟧.built_from h.sessions };

    ghost speaker = { λ h. ⟦<Sessions<ListedRoutes> as Host>⟧.speaker h.sessions };

    ghost RULE = { Sorted };

    const RULE: Packing = Packing::Sorted;

    fn make(alloc: Global, setup: Setup) -> Result<Self, AllocError> {
        Ok(Listed {
            sessions: Sessions::make(alloc, setup)?,
        })
    }

    fn step(self, alloc: Global, event: Event<'_>, out: &mut Outputs) -> Result<Self, AllocError> {
        Ok(Listed {
            sessions: self.sessions.step(alloc, event, out)?,
        })
    }

    fn route_after(&self, after: Option<Prefix>, section: &mut Buf) -> Option<(Prefix, u32)> {
        self.sessions.route_after(after, section)
    }

    fn adv_after(&self, peer: u32, after: Option<Prefix>, section: &mut Buf) -> Option<Prefix> {
        self.sessions.adv_after(peer, after, section)
    }

    fn drained(&self, peer: u32) -> bool {
        self.sessions.drained(peer)
    }

    fn map_after(&self, map: u32, after: Option<&[u8]>) -> Option<(&[u8], &[u8])> {
        self.sessions.map_after(map, after)
    }

    fn fault_noted(&self, program: u32, cause: Cause) -> bool {
        self.sessions.fault_noted(program, cause)
    }
}

impl Listed {
    /// The routes that a peer sent.
    pub fn table(&self, peer: u32) -> &PeerTable
        requires { IsPeer (⟦<Listed as Host>⟧.built_from self.now) peer }
        ensures { result.now ≡ (tables_of (⟦<Listed as Host>⟧.speaker self.now).routing peer).adjin }
    {
        self.sessions.routes().table(peer)
    }
}

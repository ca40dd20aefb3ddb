// The routes' half of a speaker, and the host.
ghost use Rattle.std.specs.Prelude.{◌≡◌};
ghost use Rattle.xb_domain.specs.declared.output.Packing.TheVariants.{Grouped};
ghost use Rattle.host_interned.specs.Ribs.{living_by, living_of, sources_by, sources_of};

use crate::Chosen;
use crate::routing::Core;
use attr_intern::Pool;
use bgp_fsm::Session;
use bpf_machine::Cause;
use rib_tree::Tree;
use spk_model::{Host, Setup};
use spk_session::{Routes, Sessions};
use std::alloc::{AllocError, Global};
use std::marker::Model;
use xb_domain::{Event, Outputs, Packing};
use xb_values::{Buf, Prefix};
use xbgp_config::Config;

/// The routes' half of a speaker: prefix trees of ids of shared records, and what each peer is advertised by section.
#[derive(Drop)]
pub struct InternedRoutes {
    core: Core,
}

impl Model for InternedRoutes {
    ghost use Rattle.host_interned.specs.Meaning.{seen_of, IsReady, Seen};

    ghost Value = { Seen };

    ghost view = { λ r. seen_of r.core };

    ghost invariant = { λ r. IsReady r.core };
}

impl Routes for InternedRoutes {
    ghost built_from = { λ r. r.setup };

    ghost routing = { λ r. r.routing };

    ghost RULE = { Grouped };

    const RULE: Packing = Packing::Grouped;

    fn make(alloc: Global, setup: Setup) -> Result<Self, AllocError> {
        Ok(InternedRoutes {
            core: Core::make(alloc, setup)?,
        })
    }

    fn config(&self) -> &Config {
        self.core.config()
    }

    fn update(
        &mut self,
        alloc: Global,
        sessions: &[Session],
        now: u32,
        peer: u32,
        body: &[u8],
    ) -> Result<(), AllocError> {
        self.core.update(alloc, sessions, now, peer, body)
    }

    fn export_all(
        &mut self,
        alloc: Global,
        sessions: &[Session],
        peer: u32,
    ) -> Result<(), AllocError> {
        self.core.export_all(alloc, sessions, peer)
    }

    fn lose(&mut self, alloc: Global, sessions: &[Session], peer: u32) -> Result<(), AllocError> {
        self.core.lose(alloc, sessions, peer)
    }

    fn rescan(&mut self, alloc: Global, sessions: &[Session]) -> Result<(), AllocError> {
        self.core.rescan(alloc, sessions)
    }

    fn next_message(&mut self, peer: u32, out: &mut Buf) -> bool {
        self.core.next_message(peer, out)
    }

    fn is_told(&self, peer: u32) -> bool {
        self.core.is_told(peer)
    }

    fn route_after(&self, after: Option<Prefix>, section: &mut Buf) -> Option<(Prefix, u32)> {
        self.core.route_after(after, section)
    }

    fn adv_after(&self, peer: u32, after: Option<Prefix>, section: &mut Buf) -> Option<Prefix> {
        self.core.adv_after(peer, after, section)
    }

    fn map_after(&self, map: u32, after: Option<&[u8]>) -> Option<(&[u8], &[u8])> {
        self.core.map_after(map, after)
    }

    fn fault_noted(&self, program: u32, cause: Cause) -> bool {
        self.core.fault_noted(program, cause)
    }
}

impl InternedRoutes {
    // The best routes by prefix.
    fn chosen(&self) -> &Tree<Chosen>
        ensures value { result.now ≡ self.now.chosen }
        ensures sources { sources_by self.now.chosen ≡ sources_of (self.now.routing).best }
    {
        self.core.chosen()
    }

    // The records of all routes.
    fn records(&self) -> &Pool
        ensures value { result.now ≡ self.now.records }
        ensures routes { living_by self.now.records self.now.chosen ≡ living_of (self.now.routing).best }
    {
        self.core.records()
    }
}

/// A host that keeps shared records of attributes.
#[derive(Drop)]
pub struct Interned {
    sessions: Sessions<InternedRoutes>,
}

impl Host for Interned {
    ghost built_from = { λ h. ⟦<Sessions<InternedRoutes> as Host>⟧.built_from h.sessions };

    ghost speaker = { λ h. ⟦<Sessions<InternedRoutes> as Host>⟧.speaker h.sessions };

    ghost RULE = { Grouped };

    const RULE: Packing = Packing::Grouped;

    fn make(alloc: Global, setup: Setup) -> Result<Self, AllocError> {
        Ok(Interned {
            sessions: Sessions::make(alloc, setup)?,
        })
    }

    fn step(self, alloc: Global, event: Event<'_>, out: &mut Outputs) -> Result<Self, AllocError> {
        Ok(Interned {
            sessions: self.sessions.step(alloc, event, out)?,
        })
    }

    fn route_after(&self, after: Option<Prefix>, section: &mut Buf) -> Option<(Prefix, u32)> {
        self.sessions.route_after(after, section)
    }

    fn adv_after(&self, peer: u32, after: Option<Prefix>, section: &mut Buf) -> Option<Prefix> {
        self.sessions.adv_after(peer, after, section)
    }

    fn drained(&self, peer: u32) -> bool {
        self.sessions.drained(peer)
    }

    fn map_after(&self, map: u32, after: Option<&[u8]>) -> Option<(&[u8], &[u8])> {
        self.sessions.map_after(map, after)
    }

    fn fault_noted(&self, program: u32, cause: Cause) -> bool {
        self.sessions.fault_noted(program, cause)
    }
}

impl Interned {
    /// The best routes: for each prefix the number of the source, and the id of the record.
    pub fn routes(&self) -> &Tree<Chosen>
        ensures value { result.now ≡ self.now.sessions.routes.chosen }
        ensures sources { sources_by result.now ≡ sources_of (⟦<Interned as Host>⟧.speaker self.now).routing.best }
    {
        self.sessions.routes().chosen()
    }

    /// The records of all routes that the host keeps.
    pub fn records(&self) -> &Pool
        ensures { living_by result.now self.now.sessions.routes.chosen
            ≡ living_of (⟦<Interned as Host>⟧.speaker self.now).routing.best }
    {
        self.sessions.routes().records()
    }
}

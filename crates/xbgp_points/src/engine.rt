// The engine that runs chains.
ghost use Rattle.std.specs.Prelude.{◌≡◌, ◌≤◌, ◌==◌, [], length, not, IfOk, IfSome, IsTrue};
ghost use Rattle.xb_words.specs.Table.{has_key};
ghost use Rattle.spk_native.specs.Export.{native_section};
ghost use Rattle.xbgp_maps.specs.Mappings.{closed, shapes_of};
ghost use Rattle.xbgp_manifest.specs.Manifests.{entry_shapes};
ghost use Rattle.xb_domain.specs.declared.point.Point.TheVariants.{Decision, Encode, Outbound};
ghost use Rattle.xbgp_points.specs.Chains.{fault_cmp, is_sendable, programs_at};
ghost use Rattle.xbgp_points.specs.Engines.{started, Answers, IsUndone, KeepsRoute};
ghost use Rattle.xbgp_points.specs.Points.{encode, given_section, inbound, outbound, prefer, receive, section_left};

use crate::decision::at_decision;
use crate::encode::at_encode;
use crate::inbound::at_inbound;
use crate::order::{Orders, orders_of};
use crate::outbound::at_outbound;
use crate::outcome::Outcome;
use crate::receive::at_receive;
use crate::work::Work;
use bgp_attr::MAX_CANONICAL;
use bpf_machine::Cause;
use std::alloc::{AllocError, Global};
use std::marker::Model;
use xb_domain::Side;
use xb_values::{Buf, Prefix};
use xb_wire::numbers::MAX_BODY;
use xbgp_manifest::Manifest;
use xbgp_maps::Maps;
use xbgp_view::{Overlay, RouteView};

/// Runs the programs of a manifest, and keeps its maps and the faults that were noted.
#[derive(Drop)]
pub struct Engine {
    manifest: Manifest,
    local: Side,
    orders: Orders,
    work: Work,
}

impl Model for Engine {
    ghost use Rattle.std.specs.Prelude.{◌≡◌};
    ghost use Rattle.bgp_attr.specs.declared.TheConstants.{MAX_CANONICAL};
    ghost use Rattle.xbgp_maps.specs.Mappings.{closed, shapes_of};
    ghost use Rattle.xbgp_manifest.specs.Manifests.{entry_shapes};
    ghost use Rattle.xbgp_points.specs.Engines.{Kept};
    ghost use Rattle.xbgp_points.specs.Orders.{AreOrders};

    ghost Value = { Kept };

    ghost view = { λ e. record {
      manifest = e.manifest;
      local = e.local;
      engine = record { maps = (e.work.maps).maps; faults = e.work.faults };
      wrote = e.work.wrote;
    } };

    ghost invariant = { λ e.
        AreOrders (e.manifest).programs e.orders
        × (e.work.maps ≡ closed (e.work.maps).maps)
        × (shapes_of (e.work.maps).maps ≡ entry_shapes (e.manifest).maps)
        × (e.work.section.capacity ≡ MAX_CANONICAL) };
}

impl Engine {
    /// An engine of a manifest, for the speaker itself as `local`. All memory that its calls need is taken here. Err if
    /// there is no memory.
    #[tactic(auto, using(crate::proofs::MapLemmas::shapes_of_empty))]
    pub fn make(alloc: Global, manifest: Manifest, local: Side) -> Result<Engine, AllocError>
        ensures { IfOk result (λ e. e ≡ started manifest local) }
    {
        let orders = orders_of(alloc, &manifest.programs)?;
        let work = Work::make(alloc, &manifest.maps)?;
        Ok(Engine {
            manifest,
            local,
            orders,
            work,
        })
    }

    /// Runs the programs at receive on the route of an UPDATE with announced prefixes. `now` is the clock, `peer` the
    /// sender, `body` the message after its header.
    pub fn receive(&mut self, now: u64, peer: &Side, route: &mut Overlay, body: &[u8]) -> Outcome
        requires { length body.now ≤ MAX_BODY }
        ensures answers { Answers
            (receive self.old.manifest self.old.local self.old.engine now peer.now route.old.route body.now)
            self.old self.new result route.new.route }
        ensures undone { IsUndone result self.old self.new route.old.route route.new.route }
        ensures keeps { KeepsRoute route.old.route route.new.route }
    {
        at_receive(
            &self.manifest,
            &self.orders,
            &mut self.work,
            now,
            peer,
            route,
            &self.local,
            body,
        )
    }

    /// Runs the programs at inbound on a copy of the route for one announced prefix.
    pub fn inbound(&mut self, now: u64, peer: &Side, prefix: Prefix, route: &mut Overlay) -> Outcome
        ensures answers { Answers
            (inbound self.old.manifest self.old.local self.old.engine now peer.now prefix route.old.route)
            self.old self.new result route.new.route }
        ensures undone { IsUndone result self.old self.new route.old.route route.new.route }
        ensures keeps { KeepsRoute route.old.route route.new.route }
    {
        at_inbound(
            &self.manifest,
            &self.orders,
            &mut self.work,
            now,
            peer,
            prefix,
            route,
            &self.local,
        )
    }

    /// Runs the programs at decision on two candidates for a prefix, each with its source.
    pub fn prefer<A: RouteView, B: RouteView>(
        &mut self,
        prefix: Prefix,
        old: &A,
        old_side: &Side,
        new: &B,
        new_side: &Side,
    ) -> Outcome
        ensures answers { Answers
            (prefer self.old.manifest self.old.local self.old.engine prefix (A.route old.now) old_side.now
            (B.route new.now) new_side.now)
            self.old self.new result (A.route old.now) }
        ensures undone { IsUndone result self.old self.new (A.route old.now) (A.route old.now) }
    {
        at_decision(
            &self.manifest,
            &self.orders,
            &mut self.work,
            prefix,
            old,
            old_side,
            new,
            new_side,
            &self.local,
        )
    }

    /// Runs the programs at outbound on the best route for a prefix as it would be exported to `peer`. `source` is
    /// the side that the best route comes from, and `best` that route before its export.
    pub fn outbound<R: RouteView>(
        &mut self,
        peer: &Side,
        source: &Side,
        prefix: Prefix,
        best: &R,
        route: &mut Overlay,
    ) -> Outcome
        ensures answers { Answers
            (outbound self.old.manifest self.old.local self.old.engine peer.now source.now prefix (R.route best.now)
            route.old.route)
            self.old self.new result route.new.route }
        ensures undone { IsUndone result self.old self.new route.old.route route.new.route }
        ensures keeps { KeepsRoute route.old.route route.new.route }
    {
        at_outbound(
            &self.manifest,
            &self.orders,
            &mut self.work,
            peer,
            source,
            prefix,
            best,
            route,
            &self.local,
        )
    }

    /// Whether there is a program at decision.
    pub fn runs_at_decision(&self) -> bool
        ensures { result ≡ not (length (programs_at self.now.manifest Decision) == 0) }
    {
        !self.orders.decision.is_empty()
    }

    /// Whether there is a program at outbound.
    pub fn runs_at_outbound(&self) -> bool
        ensures { result ≡ not (length (programs_at self.now.manifest Outbound) == 0) }
    {
        !self.orders.outbound.is_empty()
    }

    /// Whether there is a program at encode.
    pub fn runs_at_encode(&self) -> bool
        ensures { result ≡ not (length (programs_at self.now.manifest Encode) == 0) }
    {
        !self.orders.encode.is_empty()
    }

    /// Runs the programs at encode on the route that outbound left, of which `native` is the native section. After a
    /// verdict `out` has the section to send, before it takes the form of its session; otherwise it stays empty.
    pub fn encode<R: RouteView>(
        &mut self,
        peer: &Side,
        source: &Side,
        best: &R,
        route: &Overlay,
        native: &[u8],
        out: &mut Buf,
    ) -> Outcome
        requires empty { out.old.octets ≡ [] }
        requires room { MAX_CANONICAL ≤ out.old.capacity }
        requires native { native.now ≡ native_section route.now.route }
        ensures answers { Answers
            (encode self.old.manifest self.old.local self.old.engine peer.now source.now (R.route best.now)
            route.now.route)
            self.old self.new result route.now.route }
        ensures undone { IsUndone result self.old self.new route.now.route route.now.route }
        ensures section { out.new ≡ record out.old {
          octets = section_left
              (encode self.old.manifest self.old.local self.old.engine peer.now source.now (R.route best.now)
              route.now.route);
        } }
        ensures sendable { IfSome (given_section
            (encode self.old.manifest self.old.local self.old.engine peer.now source.now (R.route best.now)
            route.now.route)) (λ s. IsTrue (is_sendable s)) }
    {
        at_encode(
            &self.manifest,
            &self.orders,
            &mut self.work,
            peer,
            source,
            best,
            route,
            &self.local,
            native,
            out,
        )
    }

    /// The maps. No run is open in them.
    pub fn maps(&self) -> &Maps
        ensures maps { result.now ≡ closed self.now.engine.maps }
        ensures shapes { shapes_of self.now.engine.maps ≡ entry_shapes self.now.manifest.maps }
    {
        &self.work.maps
    }

    /// Whether a program failed by this cause in some call.
    pub fn noted(&self, program: u32, cause: Cause) -> bool
        ensures { result ≡ has_key fault_cmp self.now.engine.faults (program, cause) }
    {
        self.work.faults.has(program, cause)
    }

    /// Whether the last of the five calls wrote to a map, and its chain did not fail. If it did not, the maps are as
    /// they were before that call. False before the first call.
    pub fn wrote(&self) -> bool
        ensures { result ≡ self.now.wrote }
    {
        self.work.wrote
    }
}

// A host of both halves.
ghost use Rattle.std.specs.Prelude.{◌≡◌, ◌≤◌, [], length, OnOk, IfOk, List, ℕ};
ghost use Rattle.xb_domain.specs.Views.{event_view};
ghost use Rattle.spk_model.specs.Readers.{AreConfigured};
ghost use Rattle.spk_model.specs.Reports.{is_drained as drained_so};
ghost use Rattle.spk_session.specs.Meaning.{core_of, kept, speaker_of, HasPeer, IsCalm, IsEven, IsReady};
ghost use Rattle.spk_session.specs.Hosting.{shown, waits_of, IsSound, Turns};

use crate::clock::time_to;
use crate::links::Links;
use crate::react::react;
use crate::routes::Routes;
use crate::start::{count_of, hold_of, make_frames, make_links};
use crate::tell::emit;
use crate::wire::octets_in;
use bgp_frame::Frames;
use bgp_fsm::{State, Stimulus};
use bpf_machine::Cause;
use spk_model::{Host, Setup};
use std::alloc::{AllocError, Global};
use std::marker::Model;
use xb_domain::{Event, Outputs, Packing};
use xb_values::{Buf, Prefix};

// What a host keeps.
#[derive(Drop)]
struct Parts<R: Routes> {
    frames: Vec<Frames>,
    links: Links,
    routes: R,
}

/// A host: a buffer for the octets of each peer, what is kept of the peers, and a half that keeps routes. They are in a
/// box, since a host is moved at each event.
#[derive(Drop)]
pub struct Sessions<R: Routes> {
    parts: Box<Parts<R>>,
}

// Contracts see the parts.
impl<R: Routes> Model for Sessions<R> {
    ghost use Rattle.spk_session.specs.declared.host.Parts.{Parts};
    ghost use Rattle.spk_session.specs.Meaning.{core_of};
    ghost use Rattle.spk_session.specs.Hosting.{IsSound};

    ghost Value = { Parts R };

    ghost view = { λ s. s.parts.value };

    ghost invariant = { λ s. let p = s.parts.value in
        IsSound p.frames.items (core_of (R.built_from p.routes) (R.routing p.routes) p.links) };
}

impl<R: Routes> Sessions<R> {
    /// The half that keeps routes, as contracts of the host see it.
    pub fn routes(&self) -> &R
        ensures value { result.now ≡ self.now.routes }
        ensures setup { R.built_from result.now ≡ ⟦<Sessions<R> as Host>⟧.built_from self.now }
        ensures routing { R.routing result.now ≡ (⟦<Sessions<R> as Host>⟧.speaker self.now).routing }
    {
        &self.parts.routes
    }
}

// Drops the octets of the peers whose transport was closed.
fn drop_closed(links: &mut Links, frames: &mut Vec<Frames>)
    requires even { IsEven links.old }
    requires count { length frames.old.items ≡ length links.old.sessions.items }
    ensures waits { waits_of frames.new.items ≡ kept links.old.dropped.items (waits_of frames.old.items) }
    ensures count { length frames.new.items ≡ length frames.old.items }
    ensures calm { IsCalm links.new }
    ensures same { links.new ≡ record links.old { dropped = links.new.dropped } }
{
    'peers: for i in 0..links.dropped.len() {
        if links.dropped[i] {
            frames[i].clear();
        }
    }
    links.dropped.fill(false);
}

// What an event does. Octets whose flag is set are still in the buffers.
fn turn<R: Routes>(
    alloc: Global,
    links: &mut Links,
    routes: &mut R,
    frames: &mut Vec<Frames>,
    event: Event<'_>,
) -> Result<(), AllocError>
    requires sound { IsSound frames.old.items (core_of (R.built_from routes.old) (R.routing routes.old) links.old) }
    requires configured { AreConfigured (R.built_from routes.old)
        (shown frames.old.items (core_of (R.built_from routes.old) (R.routing routes.old) links.old))
        (event_view event) }
    ensures { OnOk result (Turns R.RULE (event_view event.entry)
        frames.old.items (core_of (R.built_from routes.old) (R.routing routes.old) links.old)
        frames.new.items (core_of (R.built_from routes.new) (R.routing routes.new) links.new)) }
{
    match event {
        Event::Start(peer) => react(alloc, links, routes, peer, Stimulus::Start, &[]),
        Event::Stop(peer) => react(alloc, links, routes, peer, Stimulus::Stop, &[]),
        Event::Up(peer) => react(alloc, links, routes, peer, Stimulus::LinkUp, &[]),
        Event::Down(peer) => react(alloc, links, routes, peer, Stimulus::LinkDown, &[]),
        Event::Octets(peer, piece) => {
            let buffer = &mut frames[peer as usize - 1];
            octets_in(alloc, links, routes, buffer, peer, piece)
        }
        Event::Time(now) => time_to(alloc, links, routes, now),
        Event::Room(peer, octets) => emit(links, routes, peer, Some(octets)),
        Event::Drain(peer) => emit(links, routes, peer, None),
        Event::Rescan => routes.rescan(alloc, &links.sessions),
    }
}

// Whether nothing is left to tell a peer whose session is Established.
fn is_drained<R: Routes>(links: &Links, routes: &R, peer: u32) -> bool
    requires ready { IsReady (core_of (R.built_from routes.now) (R.routing routes.now) links.now) }
    requires peer { HasPeer links.now peer }
    ensures { (waits : List (List ℕ)) → result
        ≡ drained_so (speaker_of waits (core_of (R.built_from routes.now) (R.routing routes.now) links.now)) peer }
{
    let i = peer as usize - 1;
    match links.sessions[i].state() {
        State::Established => routes.is_told(peer) && links.rests[i].as_slice().is_empty(),
        State::Idle | State::Connect | State::OpenSent | State::OpenConfirm => false,
    }
}

impl<R: Routes> Host for Sessions<R> {
    ghost built_from = { λ h. R.built_from h.routes };

    ghost speaker = { λ h. shown h.frames.items (core_of (R.built_from h.routes) (R.routing h.routes) h.links) };

    ghost RULE = { R.RULE };

    const RULE: Packing = R::RULE;

    fn make(alloc: Global, setup: Setup) -> Result<Self, AllocError> {
        let routes = R::make(alloc, setup)?;
        let hold = hold_of(routes.config());
        let count = count_of(routes.config());
        let links = make_links(alloc, hold, count)?;
        let frames = make_frames(alloc, count)?;
        let parts = Parts {
            frames,
            links,
            routes,
        };
        Ok(Sessions {
            parts: Box::new(alloc, parts)?,
        })
    }

    fn step(self, alloc: Global, event: Event<'_>, out: &mut Outputs) -> Result<Self, AllocError> {
        let Sessions { mut parts } = self;
        let held = &mut *parts;
        turn(
            alloc,
            &mut held.links,
            &mut held.routes,
            &mut held.frames,
            event,
        )?;
        drop_closed(&mut held.links, &mut held.frames);
        out.append(&mut held.links.outputs)?;
        Ok(Sessions { parts })
    }

    fn route_after(&self, after: Option<Prefix>, section: &mut Buf) -> Option<(Prefix, u32)> {
        self.parts.routes.route_after(after, section)
    }

    fn adv_after(&self, peer: u32, after: Option<Prefix>, section: &mut Buf) -> Option<Prefix> {
        self.parts.routes.adv_after(peer, after, section)
    }

    fn drained(&self, peer: u32) -> bool {
        let held = &*self.parts;
        is_drained(&held.links, &held.routes, peer)
    }

    fn map_after(&self, map: u32, after: Option<&[u8]>) -> Option<(&[u8], &[u8])> {
        self.parts.routes.map_after(map, after)
    }

    fn fault_noted(&self, program: u32, cause: Cause) -> bool {
        self.parts.routes.fault_noted(program, cause)
    }
}

// Octets that come from a peer: they go into its buffer, and every message at its front is taken.
ghost use Rattle.std.specs.Prelude.{◌≡◌, ◌≤◌, length, true, IfOk, OnOk};
ghost use Rattle.bgp_frame.specs.declared.frames.TheConstants.{MAX_WAITING};
ghost use Rattle.bgp_fsm.specs.Sessions.{is_live};
ghost use Rattle.spk_session.specs.Meaning.{core_of, state_in, HasPeer, IsCalm, IsEven, IsReady};
ghost use Rattle.spk_session.specs.Taking.{AllBy, FrontBy, IsDrained, Receives};

use crate::links::Links;
use crate::messages::{message_in, refuse_header};
use crate::routes::Routes;
use bgp_frame::{Frames, MAX_WAITING, Next};
use bgp_fsm::State;
use std::alloc::{AllocError, Global};

/// What became of the front of a buffer: a message was taken, more octets are needed, or the session was closed and its
/// octets dropped.
#[derive(Clone, Copy, Debug, PartialEq, Eq)]
pub(crate) enum Front {
    Took,
    Waits,
    Dropped,
}

// Takes what is at the front of the buffer of a live session.
fn take_front<R: Routes>(
    alloc: Global,
    links: &mut Links,
    routes: &mut R,
    frames: &mut Frames,
    peer: u32,
) -> Result<Front, AllocError>
    requires ready { IsReady (core_of (R.built_from routes.old) (R.routing routes.old) links.old) }
    requires peer { HasPeer links.old peer }
    requires calm { IsCalm links.old }
    requires live { is_live (state_in links.old peer) ≡ true }
    ensures { IfOk result (λ f. FrontBy f peer
        frames.old.waits (core_of (R.built_from routes.old) (R.routing routes.old) links.old)
        frames.new.waits (core_of (R.built_from routes.new) (R.routing routes.new) links.new)) }
{
    match frames.next() {
        Next::More => Ok(Front::Waits),
        Next::Fault(fault) => {
            refuse_header(alloc, links, routes, peer, fault)?;
            let _ = links.forget(peer);
            frames.clear();
            Ok(Front::Dropped)
        }
        Next::Whole { kind, .. } => {
            message_in(alloc, links, routes, peer, kind, frames.body())?;
            if links.forget(peer) {
                frames.clear();
                return Ok(Front::Dropped);
            }
            Ok(Front::Took)
        }
    }
}

// Takes all that can be taken. Whether the session is still live is returned.
fn take_all<R: Routes>(
    alloc: Global,
    links: &mut Links,
    routes: &mut R,
    frames: &mut Frames,
    peer: u32,
) -> Result<bool, AllocError>
    requires ready { IsReady (core_of (R.built_from routes.old) (R.routing routes.old) links.old) }
    requires peer { HasPeer links.old peer }
    requires calm { IsCalm links.old }
    requires live { is_live (state_in links.old peer) ≡ true }
    requires few { length frames.old.waits ≤ MAX_WAITING }
    ensures { IfOk result (λ on. AllBy on peer
        frames.old.waits (core_of (R.built_from routes.old) (R.routing routes.old) links.old)
        frames.new.waits (core_of (R.built_from routes.new) (R.routing routes.new) links.new)) }
{
    'turns: for i in 0..MAX_WAITING {
        match take_front(alloc, links, routes, frames, peer)? {
            Front::Took => {}
            Front::Waits => return Ok(true),
            Front::Dropped => return Ok(false),
        }
    }
    Ok(true)
}

// Whether messages of a peer are read.
fn lives(links: &Links, peer: u32) -> bool
    requires even { IsEven links.now }
    requires peer { HasPeer links.now peer }
    ensures { result ≡ is_live (state_in links.now peer) }
{
    match links.sessions[peer as usize - 1].state() {
        State::Idle | State::Connect => false,
        State::OpenSent | State::OpenConfirm | State::Established => true,
    }
}

/// Octets that come from a peer. They are dropped if its session is not live.
pub(crate) fn octets_in<R: Routes>(
    alloc: Global,
    links: &mut Links,
    routes: &mut R,
    frames: &mut Frames,
    peer: u32,
    piece: &[u8],
) -> Result<(), AllocError>
    requires ready { IsReady (core_of (R.built_from routes.old) (R.routing routes.old) links.old) }
    requires peer { HasPeer links.old peer }
    requires calm { IsCalm links.old }
    requires drained { IsDrained frames.old.waits }
    ensures { OnOk result (Receives peer piece.now
        frames.old.waits (core_of (R.built_from routes.old) (R.routing routes.old) links.old)
        frames.new.waits (core_of (R.built_from routes.new) (R.routing routes.new) links.new)) }
{
    if !lives(links, peer) {
        return Ok(());
    }
    let mut at = 0;
    'pieces: for i in 0..piece.len() {
        at += frames.feed(&piece[at..]);
        if !take_all(alloc, links, routes, frames, peer)? {
            return Ok(());
        }
        if at == piece.len() {
            return Ok(());
        }
    }
    Ok(())
}

// What a host has before its first event: a session, an empty rest and an empty buffer for each peer.
ghost use Rattle.std.specs.Prelude.{◌≡◌, ◌≤◌, [], replicate, length, false, IfOk};
ghost use Rattle.xb_wire.specs.declared.numbers.TheConstants.{MAX_MESSAGE};
ghost use Rattle.bgp_fsm.specs.Sessions.{start_session};
ghost use Rattle.xbgp_config.specs.declared.limits.TheConstants.{MAX_PEERS};
ghost use Rattle.spk_session.specs.Starting.{own_session, IsStart};

use crate::links::{Links, Rest};
use bgp_frame::Frames;
use bgp_fsm::Session;
use std::alloc::{AllocError, Global};
use xb_domain::Outputs;
use xb_values::Buf;
use xb_wire::numbers::MAX_MESSAGE;
use xbgp_config::Config;

/// The hold time that a speaker is configured with, in seconds.
pub(crate) fn hold_of(config: &Config) -> u16
    ensures { result ≡ config.now.hold }
{
    config.hold
}

/// The number of configured peers.
pub(crate) fn count_of(config: &Config) -> usize
    ensures count { result ≡ length config.now.peers }
    ensures few { result ≤ MAX_PEERS }
{
    let _ = config.hold;
    config.peers.len()
}

// An idle session for each peer.
fn make_sessions(alloc: Global, hold: u16, count: usize) -> Result<Vec<Session>, AllocError>
    ensures { IfOk result (λ v. v.items ≡ replicate count (own_session hold)) }
{
    let mut sessions = Vec::new(alloc);
    'peers: for i in 0..count {
        sessions.push(Session::new(hold))?;
    }
    Ok(sessions)
}

// An empty rest for each peer.
fn make_rests(alloc: Global, count: usize) -> Result<Vec<Rest>, AllocError>
    ensures { IfOk result (λ v. v.items ≡ replicate count []) }
{
    let mut rests = Vec::new(alloc);
    'peers: for i in 0..count {
        rests.push(Rest::make(alloc)?)?;
    }
    Ok(rests)
}

/// An empty buffer for each peer.
pub(crate) fn make_frames(alloc: Global, count: usize) -> Result<Vec<Frames>, AllocError>
    ensures { IfOk result (λ v. v.items ≡ replicate count (record { waits = []; body = [] })) }
{
    let mut frames = Vec::new(alloc);
    'peers: for i in 0..count {
        frames.push(Frames::make(alloc)?)?;
    }
    Ok(frames)
}

/// What is kept of each peer.
pub(crate) fn make_links(alloc: Global, hold: u16, count: usize) -> Result<Links, AllocError>
    ensures { IfOk result (λ l. IsStart hold count l) }
{
    Ok(Links {
        clock: 0,
        sessions: make_sessions(alloc, hold, count)?,
        rests: make_rests(alloc, count)?,
        dropped: vec![in alloc; false; count]?,
        outputs: Outputs::make(alloc)?,
        message: Buf::make(alloc, MAX_MESSAGE)?,
    })
}

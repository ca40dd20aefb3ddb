// Timers that fire while the clock is set.
ghost use Rattle.std.specs.Prelude.{◌≡◌, ◌≤◌, ◌+◌, ◌-◌, ◌*◌, ◌^◌, ◌<◌, length, OnOk, IfSome};
ghost use Rattle.std.specs.Option.{option_map};
ghost use Rattle.bgp_fsm.specs.Sessions.{due as due_first};
ghost use Rattle.xbgp_config.specs.declared.limits.TheConstants.{MAX_PEERS};
ghost use Rattle.spk_model.specs.Sources.{peer_numbers};
ghost use Rattle.spk_model.specs.Turning as turning;
ghost use Rattle.spk_session.specs.Meaning.{core_of, Does, HasPeer, IsReady};
ghost use Rattle.spk_session.specs.Firing.{first_of, fires};

use crate::links::Links;
use crate::react::react;
use crate::routes::Routes;
use bgp_fsm::{Session, Stimulus, Timer};
use std::alloc::{AllocError, Global};
use std::marker::Model;

// A timer: when it is due, in seconds, and whose it is.
#[derive(Drop)]
struct Due {
    at: u64,
    peer: u32,
    timer: Timer,
}

impl Model for Due {
    ghost use Rattle.spk_model.specs.Turning as turning;

    ghost Value = { turning.Due };

    ghost view = { λ d. record { at = d.at; peer = d.peer; timer = d.timer } };
}

// What a timer is to its session.
fn stimulus_of(timer: Timer) -> Stimulus
    ensures { result ≡ turning.stimulus_of timer }
{
    match timer {
        Timer::Hold => Stimulus::HoldDue,
        Timer::Keepalive => Stimulus::KeepaliveDue,
    }
}

// The timer of a peer that is due first.
fn due_of(session: &Session, peer: u32) -> Option<Due>
    ensures { result ≡ option_map (λ d. record { at = d.0; peer = peer; timer = d.1 }) (due_first session.now.session) }
{
    let (at, timer) = session.due()?;
    Some(Due { at, peer, timer })
}

// The earlier of two, the first if both are due at one time.
fn earlier(first: Option<Due>, other: Option<Due>) -> Option<Due>
    ensures { result ≡ turning.earlier_due first other }
{
    match (first, other) {
        (Some(a), Some(b)) if b.at < a.at => Some(b),
        (None, b) => b,
        (a, _) => a,
    }
}

// The timer that is due first of all, by time and then by peer.
fn first_due(sessions: &[Session]) -> Option<Due>
    requires { length sessions.now ≤ MAX_PEERS }
    ensures first { result ≡ first_of sessions.now (peer_numbers sessions.now) }
    ensures peer { IfSome result (λ d. (1 ≤ d.peer) × (d.peer ≤ length sessions.now)) }
{
    let mut first = None;
    'peers: for i in 0..sessions.len() {
        first = earlier(first, due_of(&sessions[i], i as u32 + 1));
    }
    first
}

// A timer fires at its due time.
fn fire<R: Routes>(
    alloc: Global,
    links: &mut Links,
    routes: &mut R,
    due: Due,
) -> Result<(), AllocError>
    requires ready { IsReady (core_of (R.built_from routes.old) (R.routing routes.old) links.old) }
    requires peer { HasPeer links.old due.peer }
    requires at { due.at < 2 ^ 32 }
    ensures { OnOk result (Does (λ setup t. fires setup due t)
        (core_of (R.built_from routes.old) (R.routing routes.old) links.old)
        (core_of (R.built_from routes.new) (R.routing routes.new) links.new)) }
{
    links.clock = due.at as u32;
    react(alloc, links, routes, due.peer, stimulus_of(due.timer), &[])
}

// How many timers fire at most while the clock is set: in each second each peer's two fire once at most.
fn most_turns(peers: usize, clock: u32, now: u32) -> u64
    requires few { peers ≤ MAX_PEERS }
    requires rises { clock ≤ now }
    ensures { result ≡ 2 * peers * (now + 1 - clock) }
{
    2 * peers as u64 * (u64::from(now) + 1 - u64::from(clock))
}

/// The clock becomes `now`, in seconds: all timers that are due by then fire, each at its due time.
pub(crate) fn time_to<R: Routes>(
    alloc: Global,
    links: &mut Links,
    routes: &mut R,
    now: u32,
) -> Result<(), AllocError>
    requires ready { IsReady (core_of (R.built_from routes.old) (R.routing routes.old) links.old) }
    requires rises { links.old.clock ≤ now }
    ensures { OnOk result (Does (λ setup t. turning.time_to setup t now)
        (core_of (R.built_from routes.old) (R.routing routes.old) links.old)
        (core_of (R.built_from routes.new) (R.routing routes.new) links.new)) }
{
    let turns = most_turns(links.sessions.len(), links.clock, now);
    'turns: for i in 0..turns {
        match first_due(&links.sessions) {
            Some(due) if due.at <= u64::from(now) => fire(alloc, links, routes, due)?,
            _ => break,
        }
    }
    links.clock = now;
    Ok(())
}

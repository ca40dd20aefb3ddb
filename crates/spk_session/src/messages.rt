// What a message of a live session does, by its type, and what a fault does.
ghost use Rattle.std.specs.Prelude.{◌≡◌, ◌≤◌, ◌+◌, ◌-◌, [], true, length, slice_set, OnOk, IfSome, List, ℕ};
ghost use Rattle.std.specs.Option.{option_map};
ghost use Rattle.xb_wire.specs.declared.numbers.TheConstants.{HEADER, MAX_BODY, MAX_NOTICE_DATA, MESSAGE_HEADER_ERROR};
ghost use Rattle.xb_wire.specs.Messages.{message_kind, message_body, notification, HasMessageLength};
ghost use Rattle.xb_wire.specs.Headers.{notification_of};
ghost use Rattle.xb_wire.specs.Views.{notice_view};
ghost use Rattle.bgp_attr.specs.Paths.{width_of};
ghost use Rattle.bgp_check.specs.Judgement.{judge};
ghost use Rattle.bgp_open.specs.declared.TheConstants.{PARAMETERS};
ghost use Rattle.bgp_open.specs.Opens.{judge_open4};
ghost use Rattle.bgp_fsm.specs.declared.State.TheVariants.{OpenSent, Established};
ghost use Rattle.bgp_fsm.specs.Sessions.{is_live};
ghost use Rattle.spk_model.specs.Sources.{entry_of, is_wide};
ghost use Rattle.spk_model.specs.Turning as turning;
ghost use Rattle.spk_session.specs.Meaning.{core_of, state_in, Does, HasPeer, IsCalm, IsReady};
ghost use Rattle.spk_session.specs.Acting.{IsLeft};

use crate::links::Links;
use crate::react::react;
use crate::routes::Routes;
use bgp_check::{check_update, check_update4};
use bgp_fsm::{State, Stimulus};
use bgp_open::{OpenWant, read_open4};
use std::alloc::{AllocError, Global};
use xb_wire::numbers::{
    BAD_MESSAGE_LENGTH, BAD_MESSAGE_TYPE, CONNECTION_NOT_SYNCHRONIZED, MESSAGE_HEADER_ERROR,
    NOTIFICATION, OPEN, UPDATE,
};
use xb_wire::{HeaderFault, Notice};
use xbgp_config::Config;

// The AS number with which a peer is configured.
fn asn_of(config: &Config, peer: u32) -> u32
    requires least { 1 ≤ peer }
    requires most { peer ≤ length config.now.peers }
    ensures { result ≡ (entry_of config.now peer).asn }
{
    config.peers.get(peer as usize - 1).asn
}

// The first fault of the body of an UPDATE, by whether AS numbers have four octets in the session.
fn fault_of_update(body: &[u8], wide: bool) -> Option<Notice<'_>>
    requires { length body.now ≤ MAX_BODY }
    ensures fault { option_map notice_view result ≡ judge (width_of wide) body.now }
    ensures data { IfSome result (λ n. length n.extra.now ≤ MAX_NOTICE_DATA) }
{
    let judged = if wide {
        check_update4(body)
    } else {
        check_update(body)
    };
    match judged {
        Ok(_) => None,
        Err(notice) => Some(notice),
    }
}

// Refuses what a peer sent: it gets a NOTIFICATION, and its transport is closed.
fn refuse<R: Routes>(
    alloc: Global,
    links: &mut Links,
    routes: &mut R,
    peer: u32,
    notice: &Notice<'_>,
) -> Result<(), AllocError>
    requires ready { IsReady (core_of (R.built_from routes.old) (R.routing routes.old) links.old) }
    requires peer { HasPeer links.old peer }
    requires live { is_live (state_in links.old peer) ≡ true }
    requires extra { length notice.now.extra.now ≤ MAX_NOTICE_DATA }
    ensures does { OnOk result (Does (λ setup t. turning.refuse setup t peer (notice_view notice.now))
        (core_of (R.built_from routes.old) (R.routing routes.old) links.old)
        (core_of (R.built_from routes.new) (R.routing routes.new) links.new)) }
    ensures closed { OnOk result (links.new.dropped.items ≡ slice_set links.old.dropped.items (peer - 1) true) }
{
    let fault = Stimulus::Fault {
        code: notice.code,
        subcode: notice.subcode,
    };
    react(alloc, links, routes, peer, fault, notice.extra)
}

// Refuses a header, by the subcode and what is quoted of it.
fn refuse_for<R: Routes>(
    alloc: Global,
    links: &mut Links,
    routes: &mut R,
    peer: u32,
    subcode: u8,
    extra: &[u8],
) -> Result<(), AllocError>
    requires ready { IsReady (core_of (R.built_from routes.old) (R.routing routes.old) links.old) }
    requires peer { HasPeer links.old peer }
    requires live { is_live (state_in links.old peer) ≡ true }
    requires extra { length extra.now ≤ MAX_NOTICE_DATA }
    ensures does { OnOk result (Does
        (λ setup t. turning.refuse setup t peer (notification MESSAGE_HEADER_ERROR subcode extra.now))
        (core_of (R.built_from routes.old) (R.routing routes.old) links.old)
        (core_of (R.built_from routes.new) (R.routing routes.new) links.new)) }
    ensures closed { OnOk result (links.new.dropped.items ≡ slice_set links.old.dropped.items (peer - 1) true) }
{
    let notice = Notice {
        code: MESSAGE_HEADER_ERROR,
        subcode,
        extra,
    };
    refuse(alloc, links, routes, peer, &notice)
}

/// Refuses a header.
pub(crate) fn refuse_header<R: Routes>(
    alloc: Global,
    links: &mut Links,
    routes: &mut R,
    peer: u32,
    fault: HeaderFault,
) -> Result<(), AllocError>
    requires ready { IsReady (core_of (R.built_from routes.old) (R.routing routes.old) links.old) }
    requires peer { HasPeer links.old peer }
    requires live { is_live (state_in links.old peer) ≡ true }
    ensures does { OnOk result (Does
        (λ setup t. turning.refuse setup t peer (notification_of fault))
        (core_of (R.built_from routes.old) (R.routing routes.old) links.old)
        (core_of (R.built_from routes.new) (R.routing routes.new) links.new)) }
    ensures closed { OnOk result (links.new.dropped.items ≡ slice_set links.old.dropped.items (peer - 1) true) }
{
    match fault {
        HeaderFault::Marker => {
            let subcode = CONNECTION_NOT_SYNCHRONIZED;
            refuse_for(alloc, links, routes, peer, subcode, &[])
        }
        HeaderFault::Length(len) => {
            let field = len.to_be_bytes();
            refuse_for(alloc, links, routes, peer, BAD_MESSAGE_LENGTH, &field)
        }
        HeaderFault::Kind(kind) => {
            refuse_for(alloc, links, routes, peer, BAD_MESSAGE_TYPE, &[kind])
        }
    }
}

// Takes an OPEN in OpenSent.
fn judged_open<R: Routes>(
    alloc: Global,
    links: &mut Links,
    routes: &mut R,
    peer: u32,
    body: &[u8],
) -> Result<(), AllocError>
    requires ready { IsReady (core_of (R.built_from routes.old) (R.routing routes.old) links.old) }
    requires peer { HasPeer links.old peer }
    requires calm { IsCalm links.old }
    requires live { is_live (state_in links.old peer) ≡ true }
    requires least { PARAMETERS ≤ length body.now }
    ensures does { OnOk result (Does
        (λ setup t. turning.judged_open setup t peer body.now
        (judge_open4 body.now (entry_of setup.config peer).asn))
        (core_of (R.built_from routes.old) (R.routing routes.old) links.old)
        (core_of (R.built_from routes.new) (R.routing routes.new) links.new)) }
    ensures left { OnOk result (IsLeft peer links.old links.new) }
{
    let want = OpenWant {
        peer_as: asn_of(routes.config(), peer),
    };
    match read_open4(body, &want) {
        Ok(seen) => {
            let good = Stimulus::OpenGood {
                hold: seen.hold,
                id: seen.id,
                wide: seen.wide,
            };
            react(alloc, links, routes, peer, good, &[])
        }
        Err(notice) => refuse(alloc, links, routes, peer, &notice),
    }
}

// Takes an OPEN.
fn open_in<R: Routes>(
    alloc: Global,
    links: &mut Links,
    routes: &mut R,
    peer: u32,
    body: &[u8],
) -> Result<(), AllocError>
    requires ready { IsReady (core_of (R.built_from routes.old) (R.routing routes.old) links.old) }
    requires peer { HasPeer links.old peer }
    requires calm { IsCalm links.old }
    requires live { is_live (state_in links.old peer) ≡ true }
    requires least { PARAMETERS ≤ length body.now }
    ensures does { OnOk result (Does
        (λ setup t. turning.open_in setup t peer body.now (turning.state_of t peer))
        (core_of (R.built_from routes.old) (R.routing routes.old) links.old)
        (core_of (R.built_from routes.new) (R.routing routes.new) links.new)) }
    ensures left { OnOk result (IsLeft peer links.old links.new) }
{
    match links.sessions[peer as usize - 1].state() {
        State::OpenSent => judged_open(alloc, links, routes, peer, body),
        State::Idle | State::Connect | State::OpenConfirm | State::Established => {
            react(alloc, links, routes, peer, Stimulus::OpenLate, &[])
        }
    }
}

// Takes an UPDATE in Established.
fn judged_update<R: Routes>(
    alloc: Global,
    links: &mut Links,
    routes: &mut R,
    peer: u32,
    body: &[u8],
) -> Result<(), AllocError>
    requires ready { IsReady (core_of (R.built_from routes.old) (R.routing routes.old) links.old) }
    requires peer { HasPeer links.old peer }
    requires calm { IsCalm links.old }
    requires live { is_live (state_in links.old peer) ≡ true }
    requires established { state_in links.old peer ≡ Established }
    requires short { length body.now ≤ MAX_BODY }
    ensures does { OnOk result (Does
        (λ setup t. turning.judged_update setup t peer body.now
        (judge (width_of (is_wide (t.speaker).sessions peer)) body.now))
        (core_of (R.built_from routes.old) (R.routing routes.old) links.old)
        (core_of (R.built_from routes.new) (R.routing routes.new) links.new)) }
    ensures left { OnOk result (IsLeft peer links.old links.new) }
{
    let wide = links.sessions[peer as usize - 1].wide();
    if let Some(notice) = fault_of_update(body, wide) {
        return refuse(alloc, links, routes, peer, &notice);
    }
    react(alloc, links, routes, peer, Stimulus::Update, &[])?;
    routes.update(alloc, &links.sessions, links.clock, peer, body)
}

// Takes an UPDATE.
fn update_in<R: Routes>(
    alloc: Global,
    links: &mut Links,
    routes: &mut R,
    peer: u32,
    body: &[u8],
) -> Result<(), AllocError>
    requires ready { IsReady (core_of (R.built_from routes.old) (R.routing routes.old) links.old) }
    requires peer { HasPeer links.old peer }
    requires calm { IsCalm links.old }
    requires live { is_live (state_in links.old peer) ≡ true }
    requires short { length body.now ≤ MAX_BODY }
    ensures does { OnOk result (Does
        (λ setup t. turning.update_in setup t peer body.now (turning.state_of t peer))
        (core_of (R.built_from routes.old) (R.routing routes.old) links.old)
        (core_of (R.built_from routes.new) (R.routing routes.new) links.new)) }
    ensures left { OnOk result (IsLeft peer links.old links.new) }
{
    match links.sessions[peer as usize - 1].state() {
        State::Established => judged_update(alloc, links, routes, peer, body),
        State::Idle | State::Connect | State::OpenSent | State::OpenConfirm => {
            react(alloc, links, routes, peer, Stimulus::Update, &[])
        }
    }
}

/// Takes a message of a live session.
pub(crate) fn message_in<R: Routes>(
    alloc: Global,
    links: &mut Links,
    routes: &mut R,
    peer: u32,
    kind: u8,
    body: &[u8],
) -> Result<(), AllocError>
    requires ready { IsReady (core_of (R.built_from routes.old) (R.routing routes.old) links.old) }
    requires peer { HasPeer links.old peer }
    requires calm { IsCalm links.old }
    requires live { is_live (state_in links.old peer) ≡ true }
    requires sized { HasMessageLength kind (HEADER + length body.now) }
    ensures does { OnOk result ((message : List ℕ) → message_kind message ≡ kind → message_body message ≡ body.now
        → Does (λ setup t. turning.message_in setup t peer message)
        (core_of (R.built_from routes.old) (R.routing routes.old) links.old)
        (core_of (R.built_from routes.new) (R.routing routes.new) links.new)) }
    ensures left { OnOk result (IsLeft peer links.old links.new) }
{
    match kind {
        OPEN => open_in(alloc, links, routes, peer, body),
        UPDATE => update_in(alloc, links, routes, peer, body),
        NOTIFICATION => react(alloc, links, routes, peer, Stimulus::Notified, &[]),
        _ => react(alloc, links, routes, peer, Stimulus::Keepalive, &[]),
    }
}

// What the session of a peer does at a stimulus.
ghost use Rattle.std.specs.Prelude.{◌≡◌, ◌≤◌, fold, length, true, OnOk};
ghost use Rattle.xb_wire.specs.declared.numbers.TheConstants.{MAX_NOTICE_DATA};
ghost use Rattle.bgp_fsm.specs.Sessions.{is_live};
ghost use Rattle.spk_model.specs.Turning.{act as act_of, react as react_to};
ghost use Rattle.spk_session.specs.Meaning.{core_of, state_in, Does, HasPeer, IsCalm, IsReady};
ghost use Rattle.spk_session.specs.Acting.{closes, flags_after, is_close, reacted, reaction_of, IsLeft};

use crate::links::Links;
use crate::routes::Routes;
use bgp_fsm::{Act, Reaction, Stimulus};
use std::alloc::{AllocError, Global};
use xb_domain::Output;

// Does one act of the session of a peer. `extra` is the data of a NOTIFICATION.
fn act<R: Routes>(
    alloc: Global,
    links: &mut Links,
    routes: &mut R,
    peer: u32,
    what: Act,
    extra: &[u8],
) -> Result<(), AllocError>
    requires ready { IsReady (core_of (R.built_from routes.old) (R.routing routes.old) links.old) }
    requires peer { HasPeer links.old peer }
    requires extra { length extra.now ≤ MAX_NOTICE_DATA }
    ensures does { OnOk result (Does (λ setup t. act_of setup peer extra.now t what)
        (core_of (R.built_from routes.old) (R.routing routes.old) links.old)
        (core_of (R.built_from routes.new) (R.routing routes.new) links.new)) }
    ensures sessions { OnOk result (links.new.sessions ≡ links.old.sessions) }
    ensures flags { OnOk result (links.new.dropped.items
        ≡ flags_after peer (is_close what) links.old.dropped.items) }
{
    match what {
        Act::SendOpen => links.send_open(peer, routes.config()),
        Act::SendKeepalive => links.send_keepalive(peer),
        Act::SendNotice { code, subcode } => links.send_notice(peer, code, subcode, extra),
        Act::Up => {
            links.outputs.add(Output::Up(peer))?;
            routes.export_all(alloc, &links.sessions, peer)
        }
        Act::Down => {
            links.outputs.add(Output::Down(peer))?;
            routes.lose(alloc, &links.sessions, peer)
        }
        Act::Close => {
            links.close(peer);
            Ok(())
        }
    }
}

// Does the acts of the session of a peer, in order.
fn act_all<R: Routes>(
    alloc: Global,
    links: &mut Links,
    routes: &mut R,
    peer: u32,
    acts: &Reaction,
    extra: &[u8],
) -> Result<(), AllocError>
    requires ready { IsReady (core_of (R.built_from routes.old) (R.routing routes.old) links.old) }
    requires peer { HasPeer links.old peer }
    requires extra { length extra.now ≤ MAX_NOTICE_DATA }
    ensures does { OnOk result (Does (λ setup t. fold (act_of setup peer extra.now) t acts.now)
        (core_of (R.built_from routes.old) (R.routing routes.old) links.old)
        (core_of (R.built_from routes.new) (R.routing routes.new) links.new)) }
    ensures sessions { OnOk result (links.new.sessions ≡ links.old.sessions) }
    ensures flags { OnOk result (links.new.dropped.items
        ≡ flags_after peer (closes acts.now) links.old.dropped.items) }
{
    'acts: for i in 0..acts.len() {
        act(alloc, links, routes, peer, acts.get(i), extra)?;
    }
    Ok(())
}

/// Hands a stimulus to the session of a peer, and does its acts. `extra` is the data of a NOTIFICATION that it causes.
pub(crate) fn react<R: Routes>(
    alloc: Global,
    links: &mut Links,
    routes: &mut R,
    peer: u32,
    what: Stimulus,
    extra: &[u8],
) -> Result<(), AllocError>
    requires ready { IsReady (core_of (R.built_from routes.old) (R.routing routes.old) links.old) }
    requires peer { HasPeer links.old peer }
    requires extra { length extra.now ≤ MAX_NOTICE_DATA }
    ensures does { OnOk result (Does (λ setup t. react_to setup t peer what extra.now)
        (core_of (R.built_from routes.old) (R.routing routes.old) links.old)
        (core_of (R.built_from routes.new) (R.routing routes.new) links.new)) }
    ensures sessions { OnOk result (links.new.sessions.items ≡ reacted links.old peer what) }
    ensures flags { OnOk result (links.new.dropped.items
        ≡ flags_after peer (closes (reaction_of links.old peer what).acts) links.old.dropped.items) }
    ensures left { IsCalm links.old → is_live (state_in links.old peer) ≡ true
        → OnOk result (IsLeft peer links.old links.new) }
{
    let acts = links.sessions[peer as usize - 1].on(u64::from(links.clock), what);
    act_all(alloc, links, routes, peer, &acts, extra)
}

// What waits to be told to a peer leaves.
ghost use Rattle.std.specs.Prelude.{◌≡◌, ◌++◌, drop, length, false, IfOk, OnOk};
ghost use Rattle.spk_model.specs.Sources.{is_up};
ghost use Rattle.spk_model.specs.Turning as turning;
ghost use Rattle.spk_model.specs.Turning.{is_spent, less as less_by, put as put_of, within};
ghost use Rattle.spk_session.specs.Meaning.{core_of, Does, HasPeer, IsEven, IsReady};
ghost use Rattle.spk_session.specs.Telling.{Ends, HasLeft, RestBy};

use crate::links::{Links, Rest, put};
use crate::routes::Routes;
use bgp_fsm::State;
use std::alloc::AllocError;
use xb_domain::Outputs;

// The front of octets, up to a limit if there is one.
fn front(octets: &[u8], limit: Option<u32>) -> &[u8]
    ensures { result.now ≡ within limit octets.now }
{
    match limit {
        None => octets,
        Some(most) => &octets[..octets.len().min(most as usize)],
    }
}

// A limit after some octets left.
fn less(limit: Option<u32>, count: usize) -> Option<u32>
    ensures { result ≡ less_by limit count }
{
    match limit {
        None => None,
        Some(most) => Some((most as usize).saturating_sub(count) as u32),
    }
}

// Whether no more octets may leave.
fn spent(limit: Option<u32>) -> bool
    ensures { result ≡ is_spent limit }
{
    match limit {
        None => false,
        Some(most) => most == 0,
    }
}

// A rest is there to leave: one that was left, or the next message. It is false if the limit is spent or nothing waits.
fn has_rest<R: Routes>(links: &mut Links, routes: &mut R, peer: u32, limit: Option<u32>) -> bool
    requires ready { IsReady (core_of (R.built_from routes.old) (R.routing routes.old) links.old) }
    requires peer { HasPeer links.old peer }
    ensures { RestBy result R.RULE peer limit
        (core_of (R.built_from routes.old) (R.routing routes.old) links.old)
        (core_of (R.built_from routes.new) (R.routing routes.new) links.new) }
{
    if spent(limit) {
        return false;
    }
    let rest = &mut links.rests[peer as usize - 1];
    if !rest.as_slice().is_empty() {
        return true;
    }
    rest.form(routes, peer)
}

// As much of a rest leaves as the limit allows, and the limit is what it then allows.
fn put_front(
    outputs: &mut Outputs,
    peer: u32,
    rest: &mut Rest,
    limit: Option<u32>,
) -> Result<Option<u32>, AllocError>
    ensures rest { OnOk result (rest.new ≡ drop (length (within limit rest.old)) rest.old) }
    ensures outputs { OnOk result (outputs.new ≡ outputs.old ++ put_of peer (within limit rest.old)) }
    ensures left { IfOk result (λ left. left ≡ less_by limit (length rest.old)) }
{
    let count = rest.as_slice().len();
    let piece = front(rest.as_slice(), limit);
    let left = piece.len();
    put(outputs, peer, piece)?;
    rest.leave(left);
    Ok(less(limit, count))
}

// The same of the rest of a peer.
fn put_rest<R: Routes>(
    links: &mut Links,
    routes: &R,
    peer: u32,
    limit: Option<u32>,
) -> Result<Option<u32>, AllocError>
    requires ready { IsReady (core_of (R.built_from routes.now) (R.routing routes.now) links.old) }
    requires peer { HasPeer links.old peer }
    requires unspent { is_spent limit ≡ false }
    ensures { IfOk result (λ left. HasLeft R.RULE peer limit
        (core_of (R.built_from routes.now) (R.routing routes.now) links.old)
        left
        (core_of (R.built_from routes.now) (R.routing routes.now) links.new)) }
{
    let rest = &mut links.rests[peer as usize - 1];
    put_front(&mut links.outputs, peer, rest, limit)
}

// What is left of a message, and then what is pending, leaves up to the limit.
fn tell<R: Routes>(
    links: &mut Links,
    routes: &mut R,
    peer: u32,
    limit: Option<u32>,
) -> Result<(), AllocError>
    requires ready { IsReady (core_of (R.built_from routes.old) (R.routing routes.old) links.old) }
    requires peer { HasPeer links.old peer }
    ensures { OnOk result (Ends R.RULE peer limit
        (core_of (R.built_from routes.old) (R.routing routes.old) links.old)
        (core_of (R.built_from routes.new) (R.routing routes.new) links.new)) }
{
    let mut left = limit;
    'turns: while has_rest(links, routes, peer, left) {
        left = put_rest(links, routes, peer, left)?;
    }
    Ok(())
}

// Whether the session of a peer is Established.
fn is_established(links: &Links, peer: u32) -> bool
    requires even { IsEven links.now }
    requires peer { HasPeer links.now peer }
    ensures { result ≡ is_up links.now.sessions.items peer }
{
    matches!(
        links.sessions[peer as usize - 1].state(),
        State::Established
    )
}

/// What is left of a message, and then what is pending, leaves for a peer whose session is Established: at most `limit`
/// octets, or all if there is no limit.
pub(crate) fn emit<R: Routes>(
    links: &mut Links,
    routes: &mut R,
    peer: u32,
    limit: Option<u32>,
) -> Result<(), AllocError>
    requires ready { IsReady (core_of (R.built_from routes.old) (R.routing routes.old) links.old) }
    requires peer { HasPeer links.old peer }
    ensures { OnOk result (Does (λ setup t. turning.emit R.RULE t peer limit)
        (core_of (R.built_from routes.old) (R.routing routes.old) links.old)
        (core_of (R.built_from routes.new) (R.routing routes.new) links.new)) }
{
    if !is_established(links, peer) {
        return Ok(());
    }
    tell(links, routes, peer, limit)
}

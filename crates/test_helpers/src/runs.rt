// One program run at each point.
ghost use Rattle.std.specs.Prelude.{◌≡◌, ◌≤◌, [], length, IsSome};
ghost use Rattle.xb_domain.specs.declared.point.Point.TheVariants.{Receive, Inbound, Decision, Outbound, Encode};
ghost use Rattle.xb_domain.specs.Points.{helper_allowed};
ghost use Rattle.bpf_mem.specs.Memory.{fresh};
ghost use Rattle.bpf_insn.specs.Sound.{CallsOnly};
ghost use Rattle.bpf_machine.specs.Running.{bpf};
ghost use Rattle.xbgp_helpers.specs.Helping.{help};
ghost use Rattle.xbgp_helpers.specs.Shows.{shown_at_receive, shown_at_inbound, shown_at_decision};
ghost use Rattle.xbgp_helpers.specs.Shows.{shown_at_outbound, shown_at_encode};

use bpf_insn::Code;
use bpf_machine::{End, run};
use bpf_mem::regions::MAX_WINDOW;
use bpf_mem::{Memory, Room};
use xb_domain::Side;
use xb_values::{Buf, Prefix};
use xbgp_helpers::numbers::MAX_BUFFER;
use xbgp_helpers::{DecisionWorld, EncodeWorld, InboundWorld, OutboundWorld, ReceiveWorld};
use xbgp_maps::Maps;
use xbgp_view::{Overlay, RouteView};

/// Runs code at receive, over a window.
#[tactic(auto, using(xbgp_helpers::proofs::ShowsLemmas::shown_run))]
pub fn run_at_receive(
    code: &Code,
    fuel: u32,
    room: &mut Room,
    window: &[u8],
    now: u64,
    peer: &Side,
    route: &mut Overlay,
    local: &Side,
    maps: &mut Maps,
) -> End
    requires calls { CallsOnly (helper_allowed Receive) code.now }
    requires open { IsSome maps.old.began }
    requires window { length window.now ≤ MAX_WINDOW }
    ensures end { let world = (shown_at_receive now peer.now route.old local.now maps.old 0).world in
        result ≡ (bpf (help Receive) code.now (fresh window.now) fuel world).end }
    ensures route { let world = (shown_at_receive now peer.now route.old local.now maps.old 0).world in
        let left = (bpf (help Receive) code.now (fresh window.now) fuel world).world in
        route.new ≡ record route.old { route = left.route } }
    ensures maps { let world = (shown_at_receive now peer.now route.old local.now maps.old 0).world in
        let left = (bpf (help Receive) code.now (fresh window.now) fuel world).world in
        maps.new ≡ record maps.old { maps = left.maps; writes = left.writes } }
{
    let mut memory = Memory::over(room, window);
    let mut world = ReceiveWorld::new(now, peer, route, local, maps);
    run(code, &mut memory, &mut world, fuel)
}

/// Runs code at inbound.
#[tactic(auto, using(xbgp_helpers::proofs::ShowsLemmas::shown_run))]
pub fn run_at_inbound(
    code: &Code,
    fuel: u32,
    room: &mut Room,
    now: u64,
    peer: &Side,
    prefix: Prefix,
    route: &mut Overlay,
    local: &Side,
    maps: &mut Maps,
) -> End
    requires calls { CallsOnly (helper_allowed Inbound) code.now }
    requires open { IsSome maps.old.began }
    ensures end { let world = (shown_at_inbound now peer.now prefix route.old local.now maps.old 0).world in
        result ≡ (bpf (help Inbound) code.now (fresh []) fuel world).end }
    ensures route { let world = (shown_at_inbound now peer.now prefix route.old local.now maps.old 0).world in
        let left = (bpf (help Inbound) code.now (fresh []) fuel world).world in
        route.new ≡ record route.old { route = left.route } }
    ensures maps { let world = (shown_at_inbound now peer.now prefix route.old local.now maps.old 0).world in
        let left = (bpf (help Inbound) code.now (fresh []) fuel world).world in
        maps.new ≡ record maps.old { maps = left.maps; writes = left.writes } }
{
    let mut memory = Memory::over(room, &[]);
    let mut world = InboundWorld::new(now, peer, prefix, route, local, maps);
    run(code, &mut memory, &mut world, fuel)
}

/// Runs code at decision.
#[tactic(auto, using(xbgp_helpers::proofs::ShowsLemmas::shown_run))]
pub fn run_at_decision<A: RouteView, B: RouteView>(
    code: &Code,
    fuel: u32,
    room: &mut Room,
    prefix: Prefix,
    old: &A,
    old_side: &Side,
    new: &B,
    new_side: &Side,
    local: &Side,
    maps: &Maps,
) -> End
    requires { CallsOnly (helper_allowed Decision) code.now }
    ensures { let shown = shown_at_decision prefix (A.route old.now) old_side.now (B.route new.now) new_side.now local.now
        maps.now 0 in
        result ≡ (bpf (help Decision) code.now (fresh []) fuel shown.world).end }
{
    let mut memory = Memory::over(room, &[]);
    let mut world = DecisionWorld::new(prefix, old, old_side, new, new_side, local, maps);
    run(code, &mut memory, &mut world, fuel)
}

/// Runs code at outbound.
#[tactic(auto, using(xbgp_helpers::proofs::ShowsLemmas::shown_run))]
pub fn run_at_outbound<R: RouteView>(
    code: &Code,
    fuel: u32,
    room: &mut Room,
    peer: &Side,
    source: &Side,
    prefix: Prefix,
    best: &R,
    route: &mut Overlay,
    local: &Side,
    maps: &Maps,
) -> End
    requires { CallsOnly (helper_allowed Outbound) code.now }
    ensures end { let shown = shown_at_outbound peer.now source.now prefix (R.route best.now) route.old local.now maps.now
        0 in
        result ≡ (bpf (help Outbound) code.now (fresh []) fuel shown.world).end }
    ensures route { let shown = shown_at_outbound peer.now source.now prefix (R.route best.now) route.old local.now
        maps.now 0 in
        let left = (bpf (help Outbound) code.now (fresh []) fuel shown.world).world in
        route.new ≡ record route.old { route = left.route } }
{
    let mut memory = Memory::over(room, &[]);
    let mut world = OutboundWorld::new(peer, source, prefix, best, route, local, maps);
    run(code, &mut memory, &mut world, fuel)
}

/// Runs code at encode.
#[tactic(auto, using(xbgp_helpers::proofs::ShowsLemmas::shown_run))]
pub fn run_at_encode<R: RouteView>(
    code: &Code,
    fuel: u32,
    room: &mut Room,
    peer: &Side,
    source: &Side,
    best: &R,
    route: &Overlay,
    buffer: &mut Buf,
    local: &Side,
    maps: &Maps,
) -> End
    requires calls { CallsOnly (helper_allowed Encode) code.now }
    requires room { MAX_BUFFER ≤ buffer.old.capacity }
    requires short { length buffer.old.octets ≤ MAX_BUFFER }
    ensures end { let shown = shown_at_encode peer.now source.now (R.route best.now) route.now.route buffer.old local.now
        maps.now 0 in
        result ≡ (bpf (help Encode) code.now (fresh []) fuel shown.world).end }
    ensures buffer { let shown = shown_at_encode peer.now source.now (R.route best.now) route.now.route buffer.old
        local.now maps.now 0 in
        let left = (bpf (help Encode) code.now (fresh []) fuel shown.world).world in
        buffer.new ≡ record buffer.old { octets = left.buffer } }
{
    let mut memory = Memory::over(room, &[]);
    let mut world = EncodeWorld::new(peer, source, best, route, buffer, local, maps);
    run(code, &mut memory, &mut world, fuel)
}

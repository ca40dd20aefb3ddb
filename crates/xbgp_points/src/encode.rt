// The chain at encode.
ghost use Rattle.std.specs.Prelude.{◌≡◌, ◌≤◌, [], length, IfSome, IsTrue};
ghost use Rattle.std.specs.Option.{unwrap_or};
ghost use Rattle.bgp_attr.specs.declared.TheConstants.{MAX_CANONICAL};
ghost use Rattle.bpf_insn.specs.Sound.{CallsOnly};
ghost use Rattle.bpf_mem.specs.Memory.{fresh};
ghost use Rattle.bpf_machine.specs.Running.{bpf};
ghost use Rattle.spk_native.specs.Export.{native_section};
ghost use Rattle.xb_domain.specs.Points.{helper_allowed};
ghost use Rattle.xb_domain.specs.declared.point.Point.TheVariants.{Encode};
ghost use Rattle.xbgp_helpers.specs.Helping.{help};
ghost use Rattle.xbgp_helpers.specs.Shows.{shown_at_encode};
ghost use Rattle.xbgp_helpers.specs.declared.numbers.TheConstants.{MAX_BUFFER};
ghost use Rattle.xbgp_maps.specs.Mappings.{closed, shapes_of};
ghost use Rattle.xbgp_points.specs.Chains.{chain, chain_from, is_sendable};
ghost use Rattle.xbgp_points.specs.Orders.{picked, AreOrders, AreRunnable, Leaves, Parts, Ran};
ghost use Rattle.xbgp_points.specs.Points.{section_by};

use crate::chain::{Site, run_chain};
use crate::fault::FaultSet;
use crate::order::Orders;
use crate::outcome::Outcome;
use crate::section::{compose, is_clean};
use crate::work::Work;
use bgp_attr::MAX_CANONICAL;
use bpf_machine::{End, run};
use bpf_mem::regions::MAX_WINDOW;
use bpf_mem::{Memory, Room};
use xb_domain::Side;
use xb_values::Buf;
use xbgp_helpers::EncodeWorld;
use xbgp_helpers::numbers::MAX_BUFFER;
use xbgp_manifest::{Manifest, ProgramEntries, ProgramEntry};
use xbgp_maps::Maps;
use xbgp_view::{Overlay, RouteView};

// What a chain at encode runs on, with the native section and room for the section that a verdict gives.
#[derive(Drop)]
struct EncodeSite<'a, R> {
    peer: &'a Side,
    source: &'a Side,
    best: &'a R,
    route: &'a Overlay,
    native: &'a [u8],
    buffer: &'a mut Buf,
    section: &'a mut Buf,
    local: &'a Side,
    maps: &'a Maps,
    ghost room: { MAX_CANONICAL ≤ buffer.now.capacity },
    ghost short: { length buffer.now.octets ≤ MAX_BUFFER },
    ghost made: { native.now ≡ native_section route.now.route },
    ghost scratch: { MAX_CANONICAL ≤ section.now.capacity },
}

// Runs a program at encode.
#[tactic(auto, using(xbgp_helpers::proofs::ShowsLemmas::shown_run))]
fn run_program<R: RouteView>(
    program: &ProgramEntry,
    window: &[u8],
    room: &mut Room,
    peer: &Side,
    source: &Side,
    best: &R,
    route: &Overlay,
    buffer: &mut Buf,
    local: &Side,
    maps: &Maps,
) -> End
    requires calls { CallsOnly (helper_allowed Encode) program.now.code }
    requires room { MAX_BUFFER ≤ buffer.old.capacity }
    requires short { length buffer.old.octets ≤ MAX_BUFFER }
    requires window { length window.now ≤ MAX_WINDOW }
    ensures end { let shown = shown_at_encode peer.now source.now (R.route best.now) route.now.route buffer.old
        local.now maps.now 0 in
        result ≡ (bpf (help Encode) program.now.code (fresh window.now) program.now.fuel shown.world).end }
    ensures buffer { let shown = shown_at_encode peer.now source.now (R.route best.now) route.now.route buffer.old
        local.now maps.now 0 in
        let left = (bpf (help Encode) program.now.code (fresh window.now) program.now.fuel shown.world).world in
        buffer.new ≡ record buffer.old { octets = left.buffer } }
{
    let mut memory = Memory::over(room, window);
    let mut world = EncodeWorld::new(peer, source, best, route, buffer, local, maps);
    run(&program.code, &mut memory, &mut world, program.fuel)
}

impl<'a, R: RouteView> Site for EncodeSite<'a, R> {
    ghost use Rattle.std.specs.Prelude.{ℕ};
    ghost use Rattle.bgp_attr.specs.Routes.{Route};
    ghost use Rattle.xb_domain.specs.declared.point.Point.TheVariants.{Encode};
    ghost use Rattle.xbgp_helpers.specs.Shows.{shown_at_encode};
    ghost use Rattle.xbgp_maps.specs.Mappings.{Journalled};

    ghost point = { Encode };

    ghost world = { λ s. (shown_at_encode s.peer.now s.source.now (R.route s.best.now) s.route.now.route s.buffer.now
        s.local.now s.maps.now 0).world };

    ghost Fixed = { Route × Journalled × ℕ × ℕ × ℕ × ℕ };

    ghost fixed = { λ s. (
      s.route.now.route,
      s.maps.now,
      s.buffer.now.capacity,
      s.section.now.capacity,
      s.buffer.ghost_name,
      s.section.ghost_name,
    ) };

    #[tactic(auto, using(crate::proofs::SiteLemmas::left_at_encode, crate::proofs::SiteLemmas::short_after))]
    fn run(&mut self, program: &ProgramEntry, window: &[u8], room: &mut Room) -> End {
        run_program(
            program,
            window,
            room,
            self.peer,
            self.source,
            self.best,
            self.route,
            self.buffer,
            self.local,
            self.maps,
        )
    }

    fn fits(&mut self, verdict: u8) -> bool {
        compose(verdict, self.native, self.buffer.as_slice(), self.section)
            && is_clean(self.section.as_slice())
    }
}

// Runs the programs of some numbers, whose write buffer is `out`.
fn run_programs<R: RouteView>(
    programs: &ProgramEntries,
    numbers: &[usize],
    room: &mut Room,
    faults: &mut FaultSet,
    section: &mut Buf,
    peer: &Side,
    source: &Side,
    best: &R,
    route: &Overlay,
    local: &Side,
    maps: &Maps,
    native: &[u8],
    out: &mut Buf,
) -> Outcome
    requires numbers { AreRunnable Encode programs.now numbers.now }
    requires empty { out.old.octets ≡ [] }
    requires room { MAX_CANONICAL ≤ out.old.capacity }
    requires native { native.now ≡ native_section route.now.route }
    requires section { MAX_CANONICAL ≤ section.old.capacity }
    ensures left { let shown = shown_at_encode peer.now source.now (R.route best.now) route.now.route out.old local.now
        maps.now 0 in
        let world = shown.world in
        let parts : Parts = record {
          route = route.now.route;
          maps = maps.now.maps;
          writes = 0;
          buffer = out.new.octets;
        } in
        Leaves (chain_from Encode [] world faults.old (picked programs.now numbers.now) world)
        result faults.new parts }
    ensures out { out.new.capacity ≡ out.old.capacity }
    ensures section { section.new.capacity ≡ section.old.capacity }
{
    let mut site = EncodeSite {
        peer,
        source,
        best,
        route,
        native,
        buffer: out,
        section,
        local,
        maps,
    };
    run_chain(&mut site, programs, numbers, &[], room, faults)
}

// Replaces the write buffer by the section that a chain gives, if any.
fn give_section(outcome: &Outcome, route: &Overlay, native: &[u8], section: &mut Buf, out: &mut Buf)
    requires native { native.now ≡ native_section route.now.route }
    requires room { MAX_CANONICAL ≤ out.old.capacity }
    requires section { MAX_CANONICAL ≤ section.old.capacity }
    requires sendable { IfSome (section_by outcome.now route.now.route out.old.octets) (λ s. IsTrue (is_sendable s)) }
    ensures out { out.new
        ≡ record out.old { octets = unwrap_or (section_by outcome.now route.now.route out.old.octets) [] } }
    ensures section { section.new.capacity ≡ section.old.capacity }
{
    match outcome {
        Outcome::Verdict(verdict) => {
            let _fits = compose(*verdict, native, out.as_slice(), section);
            out.replace(section.as_slice());
        }
        _ => out.clear(),
    }
}

// Runs the programs of some numbers at encode.
fn chain_at_encode<R: RouteView>(
    programs: &ProgramEntries,
    numbers: &[usize],
    work: &mut Work,
    peer: &Side,
    source: &Side,
    best: &R,
    route: &Overlay,
    local: &Side,
    native: &[u8],
    out: &mut Buf,
) -> Outcome
    requires numbers { AreRunnable Encode programs.now numbers.now }
    requires closed { work.old.maps ≡ closed work.old.maps.maps }
    requires empty { out.old.octets ≡ [] }
    requires room { MAX_CANONICAL ≤ out.old.capacity }
    requires native { native.now ≡ native_section route.now.route }
    requires section { MAX_CANONICAL ≤ work.old.section.capacity }
    ensures ran { let shown = shown_at_encode peer.now source.now (R.route best.now) route.now.route out.old local.now
        work.old.maps 0 in
        let world = shown.world in
        Ran (chain_from Encode [] world work.old.faults (picked programs.now numbers.now) world)
        result route.now.route work.new }
    ensures out { let shown = shown_at_encode peer.now source.now (R.route best.now) route.now.route out.old local.now
        work.old.maps 0 in
        let world = shown.world in
        let c = chain_from Encode [] world work.old.faults (picked programs.now numbers.now) world in
        out.new ≡ record out.old { octets = unwrap_or (section_by c.outcome c.world.route c.world.buffer) [] } }
    ensures section { work.new.section.capacity ≡ work.old.section.capacity }
{
    work.wrote = false;
    if numbers.is_empty() {
        return Outcome::Native;
    }
    let outcome = run_programs(
        programs,
        numbers,
        &mut work.room,
        &mut work.faults,
        &mut work.section,
        peer,
        source,
        best,
        route,
        local,
        &work.maps,
        native,
        out,
    );
    give_section(&outcome, route, native, &mut work.section, out);
    outcome
}

/// Runs the chain at encode.
pub(crate) fn at_encode<R: RouteView>(
    manifest: &Manifest,
    orders: &Orders,
    work: &mut Work,
    peer: &Side,
    source: &Side,
    best: &R,
    route: &Overlay,
    local: &Side,
    native: &[u8],
    out: &mut Buf,
) -> Outcome
    requires orders { AreOrders manifest.now.programs orders.now }
    requires closed { work.old.maps ≡ closed work.old.maps.maps }
    requires empty { out.old.octets ≡ [] }
    requires room { MAX_CANONICAL ≤ out.old.capacity }
    requires native { native.now ≡ native_section route.now.route }
    requires section { MAX_CANONICAL ≤ work.old.section.capacity }
    ensures ran { let shown = shown_at_encode peer.now source.now (R.route best.now) route.now.route out.old local.now
        work.old.maps 0 in
        let world = shown.world in
        Ran (chain manifest.now Encode [] world work.old.faults)
        result route.now.route work.new }
    ensures out { let shown = shown_at_encode peer.now source.now (R.route best.now) route.now.route out.old local.now
        work.old.maps 0 in
        let world = shown.world in
        let c = chain manifest.now Encode [] world work.old.faults in
        out.new ≡ record out.old { octets = unwrap_or (section_by c.outcome c.world.route c.world.buffer) [] } }
    ensures section { work.new.section.capacity ≡ work.old.section.capacity }
    ensures closed { work.new.maps ≡ closed work.new.maps.maps }
    ensures shapes { shapes_of work.new.maps.maps ≡ shapes_of work.old.maps.maps }
{
    chain_at_encode(
        &manifest.programs,
        &orders.encode,
        work,
        peer,
        source,
        best,
        route,
        local,
        native,
        out,
    )
}

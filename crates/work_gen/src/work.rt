//! The walk over the events that a number and a count give.
ghost use Rattle.std.specs.Prelude.{◌≡◌, ◌≤◌, ℕ, ◌++◌, ◌∷◌, drop, IfSome};
ghost use Rattle.std.specs.Borrow.{sem};
ghost use Rattle.std.specs.Option.{option_map};
ghost use Rattle.xb_words.specs.Table.{first_of};
ghost use Rattle.xb_domain.specs.Views.{event_view};
ghost use Rattle.bgp_write.specs.Written.{Replaces};
ghost use Rattle.replay_log.specs.Lines.{IsFor};
ghost use Rattle.replay_log.specs.Views.{KeepsRoom};
ghost use Rattle.work_gen.specs.Work.{work_events, open_of};
ghost use Rattle.work_gen.specs.Views.{told_view};

use crate::generator::Generator;
use crate::step::{Step, after_drain, after_last_drain, after_session, after_update};
use crate::update::draw_update;
use bgp_write::{write_keepalive, write_open};
use std::marker::Model;
use xb_domain::Event;
use xb_values::Buf;
use xb_wire::numbers::MAX_MESSAGE;
use xbgp_config::{WORK_PEERS, work_peer};

// An event, except its octets; they are in the buffer.
#[derive(Clone, Copy)]
enum Told {
    Octets(u32),
    Event(Event<'static>),
}

/// Walks over the events that a number and a count give. Contracts see what is still to come.
#[derive(Drop)]
pub struct Work {
    step: Step,
    generator: Generator,
    // How many updates there were.
    done: u32,
    // How many updates are left.
    left: u32,
}

impl Model for Work {
    ghost use Rattle.std.specs.Prelude.{List, ◌+◌, ◌<◌, ◌^◌};
    ghost use Rattle.xb_domain.specs.Events.{Event};
    ghost use Rattle.work_gen.specs.Views.{to_come, IsStep};

    ghost Value = { List Event };

    ghost view = { λ w. to_come w.step w.generator.x w.done w.left };

    ghost invariant = { λ w. IsStep w.step × (w.done + w.left < 2 ^ 32) };
}

// Replaces the content by the OPEN of a peer.
#[tactic(auto, unfolding(crate::specs::Work::open_of))]
fn write_open_of(peer: u32, out: &mut Buf)
    requires room { MAX_MESSAGE ≤ out.old.capacity }
    requires peer { peer ≤ WORK_PEERS }
    ensures { Replaces out.old out.new (open_of peer) }
{
    let entry = work_peer(peer);
    write_open(out, entry.asn, 0, entry.address);
}

fn with_octets<'a>(told: Option<Told>, octets: &'a [u8]) -> Option<Event<'a>>
    ensures { option_map event_view result ≡ option_map (told_view octets.now) told }
{
    match told {
        None => None,
        Some(Told::Octets(peer)) => Some(Event::Octets(peer, octets)),
        Some(Told::Event(event)) => Some(event),
    }
}

impl Work {
    /// All events: first the sessions of the peers come up, then `count` updates that are drawn from `number`.
    pub fn new(number: u64, count: u32) -> Work
        ensures { result ≡ work_events number count }
    {
        Work {
            step: Step::Start(1),
            generator: Generator { x: number },
            done: 0,
            left: count,
        }
    }

    // What comes next. The octets of an event replace the content of the buffer.
    fn advance(&mut self, octets: &mut Buf) -> Option<Told>
        requires { MAX_MESSAGE ≤ octets.old.capacity }
        ensures event { option_map (told_view octets.new.octets) result ≡ first_of self.old }
        ensures rest { self.new ≡ drop 1 self.old }
        ensures peers { (now : ℕ) → IfSome result (λ t. IsFor WORK_PEERS now (told_view octets.new.octets t)) }
        ensures capacity { octets.new.capacity ≡ octets.old.capacity }
    {
        match self.step {
            Step::Start(peer) => {
                self.step = Step::Up(peer);
                Some(Told::Event(Event::Start(peer)))
            }
            Step::Up(peer) => {
                self.step = Step::Open(peer);
                Some(Told::Event(Event::Up(peer)))
            }
            Step::Open(peer) => {
                write_open_of(peer, octets);
                self.step = Step::Keepalive(peer);
                Some(Told::Octets(peer))
            }
            Step::Keepalive(peer) => {
                write_keepalive(octets);
                self.step = after_session(peer);
                Some(Told::Octets(peer))
            }
            Step::Update if self.left == 0 => {
                self.step = after_last_drain(1);
                Some(Told::Event(Event::Drain(1)))
            }
            Step::Update => {
                let mut generator = self.generator;
                let peer = draw_update(&mut generator, octets);
                self.generator = generator;
                self.left -= 1;
                self.done += 1;
                self.step = after_update(self.done);
                Some(Told::Octets(peer))
            }
            Step::Drain(peer) => {
                self.step = after_drain(peer);
                Some(Told::Event(Event::Drain(peer)))
            }
            Step::LastDrain(peer) => {
                self.step = after_last_drain(peer);
                Some(Told::Event(Event::Drain(peer)))
            }
            Step::End => None,
        }
    }

    /// The next event, or None after the last. The octets of an event replace the content of `octets`; after any other
    /// event it is unspecified.
    pub fn next<'a>(&mut self, octets: &'a mut Buf) -> Option<Event<'a>>
        requires { MAX_MESSAGE ≤ octets.old.capacity }
        ensures event { option_map event_view result ≡ first_of self.old }
        ensures rest { self.new ≡ drop 1 self.old }
        ensures peers { (now : ℕ) → IfSome result (λ e. IsFor WORK_PEERS now (event_view e)) }
    {
        next_into(octets, self)
    }
}

/// The same as [`Work::next`], with the buffer first. Its contract also says that the buffer has its old capacity once
/// the event is gone, so that it serves for the next one.
pub fn next_into<'a>(octets: &'a mut Buf, work: &mut Work) -> Option<Event<'a>>
    requires { MAX_MESSAGE ≤ octets.old.capacity }
    ensures* keeps { sem 𝓛 (KeepsRoom octets.entry) }
    ensures event { option_map event_view result ≡ first_of work.old }
    ensures rest { work.new ≡ drop 1 work.old }
    ensures peers { (now : ℕ) → IfSome result (λ e. IsFor WORK_PEERS now (event_view e)) }
{
    let told = work.advance(octets);
    with_octets(told, octets.as_slice())
}
